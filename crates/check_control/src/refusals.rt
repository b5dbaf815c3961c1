// The refusals of set: the answer, and both buffers as they were.
use crate::{nets, orders};
use check_cases::BEHIND;
use std::alloc::{AllocError, Global};
use tally::Tally;

// A call on an order, so many bits and so many words.
fn refused(
    alloc: Global,
    tally: &mut Tally,
    order: &[u16],
    w: usize,
    words: usize,
    number: usize,
    place: usize,
) -> Result<(), AllocError> {
    let mut bits = vec![in alloc; 7; w.saturating_add(BEHIND)]?;
    let mut log = vec![in alloc; 77; words.saturating_add(BEHIND)]?;
    let answer = control::control_bits(order, &mut bits[..w], &mut log[..words]);
    tally.count(tally::refused(answer, number, place));
    tally.count(bits.iter().all(|bit| *bit == 7));
    tally.count(log.iter().all(|word| *word == 77));
    Ok(())
}

fn drawn(alloc: Global, seed: u32, n: u16) -> Result<Vec<u16>, AllocError> {
    orders::order(alloc, n, &check_cases::drawn(alloc, seed, n)?)
}

// An order with entry x at place p.
fn with(alloc: Global, order: &[u16], p: usize, x: u16) -> Result<Vec<u16>, AllocError> {
    let mut with = order.to_vec(alloc)?;
    if let Some(entry) = with.get_mut(p) {
        *entry = x;
    }
    Ok(with)
}

// Five places have 8 bits and 25 entries of four words. Each length alone, then with every later question a no.
fn lengths(alloc: Global, tally: &mut Tally) -> Result<(), AllocError> {
    let order = drawn(alloc, 5, 5)?;
    let bad = with(alloc, &order, 4, 5)?;
    let cases = [
        (&order, 7, 100, 4),
        (&order, 9, 100, 4),
        (&bad, 7, 99, 4),
        (&order, 8, 99, 5),
        (&order, 8, 0, 5),
        (&bad, 8, 99, 5),
    ];
    for (order, w, words, number) in cases {
        refused(alloc, tally, order, w, words, number, 0)?;
    }
    Ok(())
}

// A log one word too short, and one of three words an entry.
fn rooms(alloc: Global, tally: &mut Tally) -> Result<(), AllocError> {
    for n in [2, 5, 1024] {
        let order = drawn(alloc, 7, n)?;
        let whole = nets::list(alloc, n)?.whole;
        let w = usize::from(whole.bits);
        let entries = usize::from(whole.entries);
        for words in [(entries * 4).saturating_sub(1), entries * 3] {
            refused(alloc, tally, &order, w, words, 5, 0)?;
        }
    }
    Ok(())
}

// Entry p too large, or like entry q, where q is before p; and with another bad entry behind it.
fn contents(alloc: Global, tally: &mut Tally) -> Result<(), AllocError> {
    let small = drawn(alloc, 2026, 5)?;
    let large = drawn(alloc, 2026, 1024)?;
    let cases = [
        (&small, 8, 100, 0, 1),
        (&small, 8, 103, 2, 4),
        (&large, 9217, 65524, 0, 1),
        (&large, 9217, 65524, 511, 512),
        (&large, 9217, 65536, 0, 1022),
    ];
    for (order, w, words, q, p) in cases {
        let again = order.get(q).copied().unwrap_or(0);
        let n = u16::try_from(order.len()).unwrap_or(u16::MAX);
        let twice = with(alloc, order, p, again)?;
        let bad = [
            with(alloc, order, p, n)?,
            with(alloc, order, p, 65535)?,
            with(alloc, &twice, 1023, again)?,
            twice,
        ];
        for order in bad.iter() {
            refused(alloc, tally, order, w, words, 6, p)?;
        }
    }
    Ok(())
}

// Case o: 1,025 entries.
fn too_many(alloc: Global, tally: &mut Tally) -> Result<(), AllocError> {
    refused(alloc, tally, &[0; 1025], 16, 16, 1, 0)
}

pub(crate) fn all(alloc: Global) -> Result<Tally, AllocError> {
    let mut tally = Tally::new();
    lengths(alloc, &mut tally)?;
    rooms(alloc, &mut tally)?;
    too_many(alloc, &mut tally)?;
    contents(alloc, &mut tally)?;
    Ok(tally)
}
