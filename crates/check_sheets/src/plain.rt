// A second writer and reader of sheets, written plainly and with no promise: bits are weighed and taken one by one, and
// refusals are 01's numbers. Sums wrap: none comes near 2^64, and so nothing has to be proved of it.
ghost use Rattle.std.specs.Prelude.{◌≤◌, length};

use answers::Answer;
use numbers::Number;
use std::alloc::{AllocError, Global};

fn refused(number: usize, place: usize) -> Answer {
    Answer {
        number,
        place,
        count: 0,
    }
}

fn accepted(count: usize) -> Answer {
    Answer {
        number: 0,
        place: 0,
        count,
    }
}

// The switch count of n places: for each i from 1 to n the least l with i at most 2 to the l, summed.
pub(crate) fn switches(n: usize) -> usize
    requires { n ≤ 1024 }
{
    let mut total = 0usize;
    let mut l = 0usize;
    let mut power = 1usize;
    for i in 1..=n {
        if power < i {
            l = l.wrapping_add(1);
            power = power.wrapping_add(power);
        }
        total = total.wrapping_add(l);
    }
    total
}

// ---- writing

// One byte, or two.
fn push_number(sheet: &mut Vec<u8>, number: usize) -> Result<(), AllocError> {
    if number < 128 {
        sheet.push(number as u8)?;
    } else {
        sheet.push((number % 128 + 128) as u8)?;
        sheet.push((number / 128 % 256) as u8)?;
    }
    Ok(())
}

// The first bit has weight 1.
fn weigh(bits: &[u8]) -> usize {
    let mut value = 0usize;
    let mut weight = 1usize;
    for bit in bits {
        if *bit == 1 {
            value = value.wrapping_add(weight);
        }
        weight = weight.wrapping_add(weight);
    }
    value
}

pub(crate) fn sheet(alloc: Global, n: usize, bits: &[u8]) -> Result<Vec<u8>, AllocError> {
    let mut sheet = Vec::new(alloc);
    push_number(&mut sheet, 1)?;
    push_number(&mut sheet, n)?;
    for group in bits.chunks(14) {
        push_number(&mut sheet, weigh(group))?;
    }
    Ok(sheet)
}

pub(crate) fn write(
    alloc: Global,
    n: usize,
    bits: &[u8],
    out: &mut [u8],
) -> Result<Answer, AllocError> {
    if 1024 < n {
        return Ok(refused(1, 0));
    }
    if bits.len() != switches(n) {
        return Ok(refused(4, 0));
    }
    if let Some(bad) = bits.iter().position(|bit| 1 < *bit) {
        return Ok(refused(7, bad));
    }
    let sheet = sheet(alloc, n, bits)?;
    if out.len() < sheet.len() {
        return Ok(refused(13, 0));
    }
    out[..sheet.len()].copy_from_slice(&sheet);
    Ok(accepted(sheet.len()))
}

// ---- reading

fn byte_at(sheet: &[u8], at: usize) -> Option<usize> {
    sheet.get(at).map(|byte| usize::from(*byte))
}

pub(crate) fn number_at(sheet: &[u8], at: usize) -> Result<Number, Answer> {
    let no_byte = refused(8, sheet.len());
    let low = byte_at(sheet, at).ok_or(no_byte)?;
    if low < 128 {
        return Ok(Number {
            value: low,
            next: at.wrapping_add(1),
        });
    }
    let high = byte_at(sheet, at.wrapping_add(1)).ok_or(no_byte)?;
    if high == 0 || 128 <= high {
        return Err(refused(9, at));
    }
    Ok(Number {
        value: (low % 128).wrapping_add(high.wrapping_mul(128)),
        next: at.wrapping_add(2),
    })
}

fn unpack(number: usize, bits: &mut [u8]) {
    let mut rest = number;
    for bit in bits.iter_mut() {
        *bit = (rest % 2) as u8;
        rest /= 2;
    }
}

// The w bits that begin at a place of the sheet, over the front of out.
fn read_bits(sheet: &[u8], start: usize, w: usize, out: &mut [u8]) -> Result<(), Answer>
    requires { (w ≤ 9217) × (w ≤ length out.old) }
{
    let mut found = [0u8; 659 * 14];
    let mut last = start;
    let mut at = start;
    for group in found.chunks_exact_mut(14).take(w.div_ceil(14)) {
        let number = number_at(sheet, at)?;
        unpack(number.value, group);
        last = at;
        at = number.next;
    }
    if found[w..].iter().any(|bit| *bit != 0) {
        return Err(refused(11, last));
    }
    if at < sheet.len() {
        return Err(refused(12, at));
    }
    out[..w].copy_from_slice(&found[..w]);
    Ok(())
}

// The number of places, or the refusal.
pub(crate) fn read(sheet: &[u8], out: &mut [u8]) -> Result<usize, Answer> {
    let form = number_at(sheet, 0)?;
    if form.value != 1 {
        return Err(refused(10, 0));
    }
    let places = number_at(sheet, form.next)?;
    let n = places.value;
    if 1024 < n {
        return Err(refused(1, 0));
    }
    let w = switches(n);
    if out.len() < w {
        return Err(refused(4, 0));
    }
    if 9217 < w {
        // Never so: no n up to 1,024 has more.
        return Err(refused(99, 0));
    }
    read_bits(sheet, places.next, w, out)?;
    Ok(n)
}
