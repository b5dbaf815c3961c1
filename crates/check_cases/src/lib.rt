// What the check programs set, mix, return and convert: sizes, words for the draw of an order, settings and blocks; and what their
// second ways do to tables and lists.
#![tactic(auto)]

ghost use Rattle.std.specs.Prelude.{◌≡◌, ◌+◌, ◌/◌, ◌<◌, ◌≤◌, IfOk, vec_len, length, slice_index_or};
ghost use Rattle.std.specs.List.{swap};
ghost use lib.ListN.{set};

use std::alloc::{AllocError, Global};
use std::ops::Range;

// ---- sizes

// So many places, and how many orders and settings of them.
#[derive(Clone, Copy)]
pub struct Size {
    pub places: u16,
    pub orders: u32,
    pub settings: u32,
}

// All orders and all settings.
const SMALL: [(u16, u32, u32); 7] = [
    (0, 1, 1),
    (1, 1, 1),
    (2, 2, 2),
    (3, 6, 8),
    (4, 24, 32),
    (5, 120, 256),
    (6, 720, 2048),
];

pub fn small() -> [Size; 7] {
    SMALL.map(|(places, orders, settings)| Size {
        places,
        orders,
        settings,
    })
}

const LARGE: [u16; 12] = [7, 23, 127, 128, 255, 256, 257, 258, 259, 1000, 1023, 1024];

pub fn large() -> [Size; 12] {
    LARGE.map(|places| Size {
        places,
        orders: 25,
        settings: 2,
    })
}

// ---- words for a draw of n places

// Word i is c without its last i digits, to the bases n, n - 1, ..: so n! numbers c in a row give each order once.
pub fn numbered(alloc: Global, c: u32, n: u16) -> Result<Vec<u32>, AllocError>
    ensures { IfOk result (λ words. vec_len words ≡ n) }
{
    let mut words = Vec::new(alloc);
    let mut x = c;
    for i in 0..n {
        words.push(x)?;
        x /= u32::from(n - i);
    }
    Ok(words)
}

// A pseudo-random sequence from c.
pub fn drawn(alloc: Global, c: u32, n: u16) -> Result<Vec<u32>, AllocError>
    ensures { IfOk result (λ words. vec_len words ≡ n) }
{
    let mut words = vec![in alloc; 0; usize::from(n)]?;
    let mut x = c;
    for word in words.iter_mut() {
        *word = x;
        x = tally::next(x);
    }
    Ok(words)
}

// ---- bytes, and a number

// So many pseudo-random bytes below `limit`.
pub fn bytes(alloc: Global, seed: u32, limit: u32, count: usize) -> Result<Vec<u8>, AllocError>
    requires { (0 < limit) × (limit ≤ 256) }
    ensures { IfOk result (λ bytes. vec_len bytes ≡ count) }
{
    let mut bytes = vec![in alloc; 0; count]?;
    let mut x = tally::random(seed);
    for byte in bytes.iter_mut() {
        *byte = (x / 7 % limit) as u8;
        x = tally::random(x);
    }
    Ok(bytes)
}

// The number of an entry, up to `count`, that x names.
pub fn entry_number(x: u32, count: usize) -> usize
    ensures { result ≤ count }
{
    x as usize % count.saturating_add(1)
}

// ---- settings

// A setting of w bits: the binary digits of c, and behind sixteen of them a pseudo-random sequence.
pub fn setting(alloc: Global, c: u32, w: usize) -> Result<Vec<u8>, AllocError>
    ensures length { IfOk result (λ bits. vec_len bits ≡ w) }
{
    let mut bits = vec![in alloc; 0; w]?;
    let mut x = c;
    for (i, bit) in bits.iter_mut().enumerate() {
        *bit = (x % 2) as u8;
        x = if i < 16 {
            x / 2
        } else {
            tally::next(x % 65536 * 3 + c % 65536)
        };
    }
    Ok(bits)
}

// ---- blocks

// So much lies behind what a call is lent, and is compared too.
pub const BEHIND: usize = 64;

// The first bytes of a pseudo-random sequence.
pub fn blocks(alloc: Global, bytes: usize) -> Result<Vec<u8>, AllocError>
    ensures { IfOk result (λ blocks. vec_len blocks ≡ bytes) }
{
    let mut blocks = vec![in alloc; 0; bytes]?;
    let mut x = 31;
    for byte in blocks.iter_mut() {
        x = tally::next(x);
        *byte = (x % 251) as u8;
    }
    Ok(blocks)
}

// Where the block at a place lies.
fn span(place: usize, width: u16) -> Range<usize>
    ensures { result.end ≡ result.start + width }
{
    let width = usize::from(width);
    let start = tally::times(place, width);
    start..start + width
}

// Block i of the blocks is at place order[i].
pub fn scattered(
    alloc: Global,
    blocks: &[u8],
    order: &[u16],
    width: u16,
) -> Result<Vec<u8>, AllocError>
    ensures { IfOk result (λ away. vec_len away ≡ length blocks.now) }
{
    let mut away = blocks.to_vec(alloc)?;
    for (from, to) in order.iter().enumerate() {
        if let Some(block) = blocks.get(span(from, width)) {
            if let Some(place) = away.as_mut_slice().get_mut(span(usize::from(*to), width)) {
                place.copy_from_slice(block);
            }
        }
    }
    Ok(away)
}

// ---- tables of a network's values

// m/2 rounded up.
pub fn up(m: u16) -> u16
    ensures { result + m / 2 ≡ m }
{
    m - m / 2
}

// The value at a place. The place behind the last is imagined and holds its own number.
pub fn value(table: &[usize], place: usize) -> usize
    ensures { result ≡ slice_index_or table.now place (length table.now) }
{
    table.get(place).copied().unwrap_or(table.len())
}

pub fn put<T: Copy>(table: &mut [T], place: usize, x: T)
    ensures within { place < length table.old → table.new ≡ set table.old place x }
    ensures nowhere { length table.old ≤ place → table.new ≡ table.old }
{
    if place < table.len() {
        table[place] = x;
    }
}

// At each value the place that holds it.
pub fn find_homes(alloc: Global, table: &[usize]) -> Result<Vec<usize>, AllocError>
    ensures { IfOk result (λ homes. vec_len homes ≡ length table.now) }
{
    let mut homes = vec![in alloc; 0; table.len()]?;
    for (place, value) in table.iter().enumerate() {
        put(&mut homes, *value, place);
    }
    Ok(homes)
}

// Two entries that there are change places.
pub fn exchange<T>(list: &mut [T], i: usize, j: usize)
    ensures within { i < length list.old → j < length list.old → list.new ≡ swap list.old i j }
    ensures nowhere { length list.old ≤ i → list.new ≡ list.old }
{
    if i < list.len() && j < list.len() {
        list.swap(i, j);
    }
}
