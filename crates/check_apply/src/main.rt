// Runs `apply` and `apply_inverse` against a second, plainly written mixer, and their logs from a drawn entry on against what that
// mixer leaves. Prints how many answers and buffers were compared and how many of them were equal.
#![tactic(auto)]

mod plain;

ghost use Rattle.std.specs.Prelude.{◌≤◌, length};

use answers::Refusal;
use check_cases::BEHIND;
use plain::Switch;
use std::alloc::{AllocError, Global};
use std::io;
use tally::Tally;

// ---- accepted calls: the answer, the blocks, and the log with the words behind it

// Sizes, from one to another.
const SIZES: [(u16, u16); 5] = [(0, 33), (127, 128), (255, 259), (1000, 1000), (1023, 1024)];

const WIDTHS: [u16; 4] = [1, 6, 255, 256];

// The number of an entry, drawn by a seed and a width.
fn drawn_entry(seed: u32, width: u16, w: usize) -> usize
    ensures { result ≤ w }
{
    let x = tally::random(tally::random(seed % 65536 + u32::from(width % 512)));
    check_cases::entry_number(x, w)
}

// What a call is to leave, the words behind its log too; and the blocks as they are where the run of its log begins.
#[derive(Drop)]
struct Right {
    before: Vec<u8>,
    blocks: Vec<u8>,
    log: Vec<u16>,
}

// The plain mixer runs the switches up to number e, and from there on.
fn run_plainly(
    switches: &[Switch],
    n: u16,
    width: u16,
    bits: &[u8],
    blocks: &Vec<u8>,
    e: usize,
) -> Result<Right, AllocError>
    requires { e ≤ length switches.now }
{
    let (first, others) = switches.split_at(e);
    let mut before = blocks.clone()?;
    let mut log = Vec::new(*blocks.allocator());
    plain::run(first, &mut before, width, bits, &mut log)?;
    let mut blocks = before.clone()?;
    plain::run(others, &mut blocks, width, bits, &mut log)?;
    log.extend_from_slice(&[77; BEHIND + 5][..BEHIND + usize::from(n % 6)])?;
    Ok(Right {
        before,
        blocks,
        log,
    })
}

// The switches are given in the sequence in which the call runs them.
fn check_call<F>(
    alloc: Global,
    tally: &mut Tally,
    call: &F,
    switches: &[Switch],
    n: u16,
    width: u16,
) -> Result<(), AllocError>
where
    F: Fn(usize, usize, &mut [u8], &[u8], &mut [u16]) -> Result<usize, Refusal>,
    requires { F.IsAlwaysCallable call.now }
{
    let seed = u32::from(n) * 3 + 1;
    let w = switches.len();
    let bytes = tally::times(usize::from(n), usize::from(width));
    let bits = check_cases::bytes(alloc, seed, 2, w)?;
    let mut blocks = check_cases::bytes(alloc, seed, 256, bytes + BEHIND)?;
    let e = drawn_entry(seed, width, w);
    let mut right = run_plainly(switches, n, width, &bits, &blocks, e)?;

    let mut log = vec![in alloc; 77; right.log.len()]?;
    let room = log.len().saturating_sub(BEHIND);
    let answer = call(
        usize::from(n),
        usize::from(width),
        &mut blocks[..bytes],
        &bits,
        &mut log[..room],
    );
    let (entries, _) = log.as_chunks::<4>();
    if let Some(entries) = entries.get(e..w) {
        plain::replay(entries, &mut right.before, width, &bits);
    }
    tally.count(tally::answered(answer, 0, 0, w));
    tally.compare(&blocks, &right.blocks);
    tally.compare(&blocks, &right.before);
    tally.count(tally::same_words(&log, &right.log));
    Ok(())
}

// `turn` brings the switches into the sequence in which the call runs them.
fn check_sizes<F, T>(alloc: Global, call: F, turn: T) -> Result<Tally, AllocError>
where
    F: Fn(usize, usize, &mut [u8], &[u8], &mut [u16]) -> Result<usize, Refusal>,
    T: Fn(&mut [Switch]),
    requires { F.IsAlwaysCallable call × T.IsAlwaysCallable turn }
{
    let mut tally = Tally::new();
    for (from, to) in SIZES {
        for n in from..=to {
            let mut switches = plain::list(alloc, n)?;
            turn(&mut switches);
            for width in WIDTHS {
                check_call(alloc, &mut tally, &call, &switches, n, width)?;
            }
        }
    }
    Ok(tally)
}

// ---- refused calls: the answer, and both buffers as they were

// n, the width, how many bytes, bits and words, and which bit is bad; the answer's number and place. Five places of six bytes have 30
// bytes, 8 bits and 32 words: each question gets a no alone, then with every later one.
const REFUSALS: [[u16; 8]; 19] = [
    [1025, 6, 30, 8, 32, 15, 1, 0],
    [1025, 0, 31, 7, 31, 0, 1, 0],
    [5, 0, 30, 8, 32, 15, 2, 0],
    [5, 257, 30, 8, 32, 15, 2, 0],
    [5, 257, 31, 7, 31, 0, 2, 0],
    [5, 6, 29, 8, 32, 15, 3, 0],
    [5, 6, 31, 8, 32, 15, 3, 0],
    [5, 6, 31, 7, 31, 0, 3, 0],
    [5, 6, 30, 7, 32, 15, 4, 0],
    [5, 6, 30, 9, 32, 15, 4, 0],
    [5, 6, 30, 7, 31, 0, 4, 0],
    [5, 6, 30, 8, 31, 15, 5, 0],
    [5, 6, 30, 8, 31, 0, 5, 0],
    [5, 6, 30, 8, 24, 15, 5, 0],
    [5, 6, 30, 8, 32, 0, 7, 0],
    [5, 6, 30, 8, 32, 3, 7, 3],
    [5, 6, 30, 8, 40, 7, 7, 7],
    // The longest log: one word too few, and three words an entry.
    [1024, 1, 1024, 9217, 36867, 9217, 5, 0],
    [1024, 1, 1024, 9217, 27651, 9217, 5, 0],
];

fn check_refusals<F>(alloc: Global, tally: &mut Tally, call: F) -> Result<(), AllocError>
where
    F: Fn(usize, usize, &mut [u8], &[u8], &mut [u16]) -> Result<usize, Refusal>,
    requires { F.IsAlwaysCallable call }
{
    for row in REFUSALS {
        let [n, width, bytes, w, words, bad, number, place] = row.map(|x| usize::from(x));
        let mut bits = vec![in alloc; 1; w]?;
        if let Some(bit) = bits.get_mut(bad) {
            *bit = 2;
        }
        let mut blocks = vec![in alloc; 33; bytes.saturating_add(BEHIND)]?;
        let mut log = vec![in alloc; 77; words.saturating_add(BEHIND)]?;
        let answer = call(n, width, &mut blocks[..bytes], &bits, &mut log[..words]);
        tally.count(tally::refused(answer, number, place));
        tally.count(blocks.iter().all(|byte| *byte == 33));
        tally.count(log.iter().all(|word| *word == 77));
    }
    Ok(())
}

fn main(rt: HostRuntime) -> io::Result<()> {
    let alloc = rt.alloc();
    let mixed = check_sizes(alloc, apply::apply, |_| ())?;
    let _ = println!(rt; "apply at 44 sizes and 4 widths: {mixed}");
    let returned = check_sizes(alloc, apply::apply_inverse, |switches| switches.reverse())?;
    let _ = println!(rt; "apply_inverse at 44 sizes and 4 widths: {returned}");
    let mut refused = Tally::new();
    check_refusals(alloc, &mut refused, apply::apply)?;
    check_refusals(alloc, &mut refused, apply::apply_inverse)?;
    let _ = println!(rt; "refusals: {refused}");
    Ok(())
}
