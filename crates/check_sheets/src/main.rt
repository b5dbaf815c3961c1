// Runs the number reader, the writer and the reader of sheets against a second, plainly written computation, on drawn bits and
// on the settings of drawn orders, and prints how much was compared and how much of it was equal.
#![tactic(auto)]

mod canonical_trips;
mod cases;
mod plain;

ghost use Rattle.std.specs.Prelude.{◌≤◌};

use answers::{Answer, Refusal};
use check_cases::BEHIND;
use std::alloc::{AllocError, Global};
use std::io;
use tally::Tally;

// ---- one comparison: the answers, and both buffers whole, with what lies behind the part that is lent

// The part of a buffer that a call is lent.
pub(crate) fn front(buffer: &mut [u8]) -> &mut [u8] {
    let room = buffer.len().saturating_sub(BEHIND);
    &mut buffer[..room]
}

fn compare_write(
    alloc: Global,
    tally: &mut Tally,
    n: usize,
    bits: &[u8],
    room: usize,
) -> Result<(), AllocError> {
    let mut out = vec![in alloc; 255u8; room.saturating_add(BEHIND)]?;
    let mut right = vec![in alloc; 255u8; room.saturating_add(BEHIND)]?;
    let written = sheet_writer::write_sheet(n, bits, front(&mut out));
    tally.count(Answer::from(written) == plain::write(alloc, n, bits, front(&mut right))?);
    tally.count(out == right);
    Ok(())
}

fn compare_read(
    alloc: Global,
    tally: &mut Tally,
    sheet: &[u8],
    room: usize,
) -> Result<(), AllocError> {
    let mut bits = vec![in alloc; 255u8; room.saturating_add(BEHIND)]?;
    let mut right = vec![in alloc; 255u8; room.saturating_add(BEHIND)]?;
    let read = sheet_reader::read_sheet(sheet, front(&mut bits));
    let expected = plain::read(sheet, front(&mut right));
    tally.count(read.map_err(numbered) == expected);
    tally.count(bits == right);
    Ok(())
}

fn compare_number(tally: &mut Tally, input: &[u8], at: usize) {
    let read = numbers::read_number(input, at);
    tally.count(read.map_err(numbered) == plain::number_at(input, at));
}

fn numbered(refusal: Refusal) -> Answer {
    Answer::from(Err(refusal))
}

// ---- settings by pseudo-random bits

// Other digits than those of `check_cases::bytes`.
fn random_bits(alloc: Global, count: usize, seed: u32) -> Result<Vec<u8>, AllocError> {
    let mut bits = Vec::new(alloc);
    let mut x = seed;
    for _ in 0..count {
        x = tally::random(x);
        bits.push((x / 64 % 2) as u8)?;
    }
    Ok(bits)
}

// The sheet itself, into just room enough, room to spare and a byte too few. With a byte more; with a byte less; with a higher bit
// set in the last number, and with one that asks for another byte.
fn reads(alloc: Global, tally: &mut Tally, sheet: &[u8], w: usize) -> Result<(), AllocError> {
    for room in [w, w.saturating_add(3), w.saturating_sub(1)] {
        compare_read(alloc, tally, sheet, room)?;
    }
    let Some((last, front)) = sheet.split_last() else {
        return Ok(());
    };
    let ends: [&[u8]; 4] = [&[*last, 0], &[], &[last / 2 + 64], &[last / 2 + 128]];
    for end in ends {
        let mut other = front.to_vec(alloc)?;
        other.extend_from_slice(end)?;
        compare_read(alloc, tally, &other, w)?;
    }
    Ok(())
}

// The bits come back, and what stands beyond them stays.
pub(crate) fn back(
    alloc: Global,
    tally: &mut Tally,
    sheet: &[u8],
    bits: &[u8],
) -> Result<(), AllocError> {
    let mut read = vec![in alloc; 255u8; 9300]?;
    let mut right = bits.to_vec(alloc)?;
    right.resize(9300, 255)?;
    let _ = sheet_reader::read_sheet(sheet, &mut read);
    tally.count(read == right);
    Ok(())
}

// A byte that is no bit, at the end and in the middle.
fn unbits(
    alloc: Global,
    tally: &mut Tally,
    n: usize,
    mut bits: Vec<u8>,
    room: usize,
) -> Result<(), AllocError> {
    if let Some(bit) = bits.last_mut() {
        *bit = 2;
    }
    compare_write(alloc, tally, n, &bits, room)?;
    let middle = bits.len() / 2;
    if let Some(bit) = bits.get_mut(middle) {
        *bit = 255;
    }
    compare_write(alloc, tally, n, &bits, room)
}

fn trip(alloc: Global, tally: &mut Tally, n: usize) -> Result<(), AllocError>
    requires { n ≤ 1024 }
{
    let bits = random_bits(alloc, plain::switches(n), n as u32)?;
    let sheet = plain::sheet(alloc, n, &bits)?;
    let end = sheet.len();
    // Just room enough, room to spare, and a byte too few.
    for room in [end, end.saturating_add(5), end.saturating_sub(1)] {
        compare_write(alloc, tally, n, &bits, room)?;
    }
    reads(alloc, tally, &sheet, bits.len())?;
    back(alloc, tally, &sheet, &bits)?;
    unbits(alloc, tally, n, bits, end)
}

// Every n from 0 to 1,024: 14 divides the count of 7, 23 and 259; from 128 on n takes two bytes.
fn trips(alloc: Global) -> Result<Tally, AllocError> {
    let mut tally = Tally::new();
    for n in 0..1025 {
        trip(alloc, &mut tally, n)?;
    }
    Ok(tally)
}

// ---- short inputs, all of them

// Numbers: every input of two bytes, at every place in it and at two past it.
fn pairs() -> Tally {
    let mut tally = Tally::new();
    for low in 0..=255u8 {
        for high in 0..=255u8 {
            for at in 0..4 {
                compare_number(&mut tally, &[low, high], at);
            }
        }
    }
    tally
}

const LAST: [u8; 8] = [0, 1, 2, 63, 64, 127, 128, 255];

// Sheets: the form number 1, n below 16, every byte after them, and then one of eight bytes or none.
fn shorts(alloc: Global) -> Result<Tally, AllocError> {
    let mut tally = Tally::new();
    for n in 0..16u8 {
        for byte in 0..=255u8 {
            for last in LAST {
                compare_read(alloc, &mut tally, &[1, n, byte, last], 48)?;
                compare_read(alloc, &mut tally, &[1, n, byte], 48)?;
            }
        }
    }
    Ok(tally)
}

fn main(rt: HostRuntime) -> io::Result<()> {
    let alloc = rt.alloc();
    let _ = println!(rt; "refusals: {}", cases::refusals(alloc)?);
    let _ = println!(rt; "numbers: {}", pairs());
    let _ = println!(rt; "short sheets: {}", shorts(alloc)?);
    let _ = println!(rt; "round trips: {}", trips(alloc)?);
    let canonical = canonical_trips::trips(alloc)?;
    let _ = println!(rt; "round trips of canonical settings: {canonical}");
    Ok(())
}
