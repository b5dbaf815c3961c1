// Runs `gauge_report` on drawn blocks against a second computation: at home, after mixing and after returning. Prints how many
// reports were compared and how many of them were equal.
#![tactic(auto)]

mod plain;

use gauges::Figures;
use plain::Drawing;
use std::alloc::{AllocError, Global};
use std::io;
use tally::Tally;

// ---- reports

// 02, F-1: with no reading all six are 0.
const NO_READING: Figures = Figures {
    count: 0,
    least: 0,
    greatest: 0,
    sum: 0,
    mean: 0,
    remainder: 0,
};

// Every gauge of n blocks, and one that no block has.
fn compare(tally: &mut Tally, blocks: &[u8], keys: &[u64]) {
    let n = keys.len();
    let absent = gauges::gauge_report(n, 6, blocks, 512);
    tally.count(absent == Ok(NO_READING));
    for run in keys.chunk_by(|a, b| plain::gauge_of(*a) == plain::gauge_of(*b)) {
        let report = gauges::gauge_report(n, 6, blocks, plain::gauge_of(run[0]));
        tally.count(report == Ok(plain::figures_of(run)));
    }
}

// Mixed under these bits. Each move must be accepted.
fn mix(tally: &mut Tally, n: usize, blocks: &mut [u8], bits: &[u8]) {
    let mut log = [0u16; entry_log::MOST_MOVE_WORDS];
    let mixed = apply::apply(n, 6, blocks, bits, &mut log);
    tally.count(mixed.is_ok());
}

fn mix_and_return(tally: &mut Tally, n: usize, blocks: &mut [u8], bits: &[u8]) {
    mix(tally, n, blocks, bits);
    let mut log = [0u16; entry_log::MOST_MOVE_WORDS];
    let returned = apply::apply_inverse(n, 6, blocks, bits, &mut log);
    tally.count(returned.is_ok());
}

// ---- drawings: each of 6 sizes with each of 3 masks and each of 8 ranges

const SIZES: [usize; 6] = [0, 1, 2, 9, 1023, 1024];

// Of the gauge numbers' bits: 1 gauge; 4 of them, two of which have each other's bytes; 256.
const MASKS: [u16; 3] = [0, 257, 21845];

// Of the readings, from the lowest on by bits of the spread.
const RANGES: [(u32, u32); 8] = [
    // Any, with sums just below 0 or above.
    (0, 4294967295),
    (1, 4294967295),
    // -2^31; 2^31 - 1; either.
    (2147483648, 0),
    (2147483647, 0),
    (2147483647, 1),
    // -2 to 1; -1 to 2; -1.
    (4294967294, 3),
    (4294967295, 3),
    (4294967295, 0),
];

fn drawing(d: u32) -> Drawing {
    let i = d as usize;
    let (low, spread) = RANGES[i / 18 % 8];
    Drawing {
        places: SIZES[i % 6],
        mask: MASKS[i / 6 % 3],
        low,
        spread,
        seed: d,
    }
}

// The drawings again and again, each time moved under other bits.
fn check_all<F: Fn(&mut Tally, usize, &mut [u8], &[u8])>(
    alloc: Global,
    count: u32,
    move_blocks: F,
) -> Result<Tally, AllocError>
    requires { F.IsAlwaysCallable move_blocks }
{
    let mut tally = Tally::new();
    for c in 0..count {
        let drawing = drawing(c % 144);
        let n = drawing.places;
        let drawn = plain::draw(alloc, drawing)?;
        let bits = check_cases::bytes(alloc, c, 2, counts::switches(n))?;
        let mut blocks = plain::bytes_of(alloc, &drawn)?;
        move_blocks(&mut tally, n, &mut blocks, &bits);
        compare(&mut tally, &blocks, &plain::keys_of(alloc, &drawn)?);
    }
    Ok(tally)
}

// ---- refusals

// How many blocks of which width, bytes that there are, and the question. Each gets a no alone, then with every later one.
const REFUSED: [(usize, usize, usize, usize); 7] = [
    (1025, 6, 6150, 1),
    (1025, 7, 12, 1),
    (2, 5, 10, 2),
    (2, 7, 14, 2),
    (2, 7, 12, 2),
    (2, 6, 11, 3),
    (1024, 6, 6150, 3),
];

fn check_refusals() -> Tally {
    let blocks = [1u8; 6150];
    let mut tally = Tally::new();
    for (n, width, filled, question) in REFUSED {
        let report = gauges::gauge_report(n, width, &blocks[..filled], 257);
        tally.count(tally::refused(report.map(|_| 0), question, 0));
    }
    tally
}

fn main(rt: HostRuntime) -> io::Result<()> {
    let alloc = rt.alloc();
    let at_home = check_all(alloc, 144, |_, _, _, _| ())?;
    let _ = println!(rt; "reports on 144 drawings: {at_home}");
    let mixed = check_all(alloc, 432, mix)?;
    let _ = println!(rt; "after mixing under 3 settings: {mixed}");
    let returned = check_all(alloc, 432, mix_and_return)?;
    let _ = println!(rt; "after returning: {returned}");
    let _ = println!(rt; "refusals: {}", check_refusals());
    Ok(())
}
