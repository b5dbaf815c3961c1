// Runs the logs that set writes in both wirings, and those of listed orders, entry by entry, on a table of its own, and compares the bits
// that this leaves with the bits that the call left. Only the log says which network is next: it is found by its start and size. Each log
// is run by its own words from its first entry on; and from a drawn entry on, where up to there the bits are counted in a plain walk.
#![tactic(auto)]

mod nets;
mod replay;

use answers::Refusal;
use replay::{Entry, Replay};
use std::alloc::{AllocError, Global};
use std::io;
use tally::Tally;
use wirings::Topology;

// Whether a log leaves an order's bits and brings each value home: in a plain walk up to entry e, and from there on by its own words.
fn is_set(
    alloc: Global,
    topology: Topology,
    order: &[u16],
    bits: &Vec<u8>,
    entries: &[Entry],
    e: usize,
) -> Result<bool, AllocError> {
    let mut replay = Replay::new(alloc, topology, order, bits.len())?;
    let (first, others) = entries.split_at(e.min(entries.len()));
    replay.walk(first);
    replay.run_by_words(others);
    Ok(replay.bits == *bits && replay.is_home())
}

// The number of an entry. Here and below a size is taken modulo 1,025, and in the other files sums wrap: no number
// comes near its bound, and so nothing has to be proved of it.
fn drawn(seed: u32, n: u16, count: usize) -> usize {
    let x = tally::next(seed % 65536 * 1025 + u32::from(n % 1025));
    check_cases::entry_number(x, count)
}

// A call that fills an order's bits and its log is accepted; the log is run from the first entry on, and from a drawn one on.
fn check_call<F>(
    alloc: Global,
    tally: &mut Tally,
    topology: Topology,
    n: u16,
    seed: u32,
    order: &mut [u16],
    call: F,
) -> Result<(), AllocError>
where
    F: FnOnce(&mut [u16], &mut [u8], &mut [u16]) -> Result<usize, Refusal>,
    requires { F.IsAlwaysCallable call }
{
    let size = usize::from(n % 1025);
    let mut bits = vec![in alloc; 0; counts::switches(size)]?;
    let mut log = [0; entry_log::MOST_SET_WORDS];
    let answer = call(order, &mut bits, &mut log);
    let count = answer.unwrap_or(0);
    let (entries, _) = log.as_chunks::<4>();
    let entries = &entries[..count.min(entries.len())];
    tally.count(answer.is_ok());
    for e in [0, drawn(seed, n, count)] {
        tally.count(is_set(alloc, topology, order, &bits, entries, e)?);
    }
    Ok(())
}

// Orders of n places, drawn by the sequences behind so many seeds.
fn check_drawn(
    alloc: Global,
    tally: &mut Tally,
    topology: Topology,
    n: u16,
    seeds: u32,
) -> Result<(), AllocError> {
    for seed in 1..=seeds {
        let mut order = vec![in alloc; 0; usize::from(n)]?;
        let _ = shuffle::shuffle(usize::from(n), &tally::words(seed), &mut order);
        check_call(
            alloc,
            tally,
            topology,
            n,
            seed,
            &mut order,
            |order, bits, log| { control::control_bits_in(topology, order, bits, log) },
        )?;
    }
    Ok(())
}

// Every size below `to`.
fn check_below(
    alloc: Global,
    topology: Topology,
    to: u16,
    seeds: u32,
) -> Result<Tally, AllocError> {
    let mut tally = Tally::new();
    for n in 0..to {
        check_drawn(alloc, &mut tally, topology, n, seeds)?;
    }
    Ok(tally)
}

fn check_large(alloc: Global, topology: Topology) -> Result<Tally, AllocError> {
    let mut tally = Tally::new();
    for n in [127, 128, 255, 256, 257, 1000, 1023, 1024] {
        check_drawn(alloc, &mut tally, topology, n, 10)?;
    }
    Ok(tally)
}

// All orders of some places, as they are listed.
fn check_listed(alloc: Global) -> Result<Tally, AllocError> {
    let mut tally = Tally::new();
    for (n, count) in [(0, 1), (1, 1), (2, 2), (3, 6), (4, 24), (5, 120), (6, 720)] {
        for r in 0..count {
            let places = usize::from(n);
            let mut order = vec![in alloc; 0; places]?;
            check_call(
                alloc,
                &mut tally,
                Topology::Paper,
                n,
                r + 1,
                &mut order,
                |order, bits, log| {
                    listed_order::ranked_order(places, r as usize, order, bits, log)
                },
            )?;
        }
    }
    Ok(tally)
}

fn main(rt: HostRuntime) -> io::Result<()> {
    let alloc = rt.alloc();
    let paper = Topology::Paper;
    let neighbour = Topology::Neighbour;
    let tally = check_below(alloc, paper, 8, 1000)?;
    let _ = println!(rt; "1,000 drawn orders at each size up to 7: {tally}");
    let tally = check_below(alloc, paper, 65, 40)?;
    let _ = println!(rt; "40 drawn orders at each size up to 64: {tally}");
    let tally = check_large(alloc, paper)?;
    let _ = println!(rt; "10 drawn orders at each of 8 sizes up to 1024: {tally}");
    let tally = check_below(alloc, neighbour, 8, 1000)?;
    let _ = println!(rt; "the same in the neighbour wiring, up to 7: {tally}");
    let tally = check_below(alloc, neighbour, 65, 40)?;
    let _ = println!(rt; "up to 64: {tally}");
    let tally = check_large(alloc, neighbour)?;
    let _ = println!(rt; "up to 1024: {tally}");
    let tally = check_listed(alloc)?;
    let _ = println!(rt; "all listed orders of up to 6 places: {tally}");
    Ok(())
}
