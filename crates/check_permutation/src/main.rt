// Runs the permutation record and the shuffle against a second, plainly written computation, and prints how many
// outcomes were compared and how many were equal.
#![tactic(auto)]

mod chains;
mod draws;
mod numbers;
mod plain;
mod refusals;

use records::Permutation;
use std::alloc::{AllocError, Global};
use std::io;
use tally::Tally;

// ---- all small lists

// What was compared of lists, and of those that are permutations.
struct Small {
    lists: Tally,
    permutations: Tally,
}

// Every list of up to 6 entries from 0 to 5: from a list; and if it is a permutation the other calls, with its true number and with
// false ones.
fn check_small(alloc: Global) -> Result<Small, AllocError> {
    let mut lists = Tally::new();
    let mut permutations = Tally::new();
    for (n, total) in [1, 6, 36, 216, 1296, 7776, 46656].iter().enumerate() {
        for c in 0..*total {
            let list = plain::digits(alloc, c, n)?;
            check_list(alloc, &mut lists, &list)?;
            if plain::first_bad(alloc, &list)?.is_none() {
                check_permutation(alloc, &mut permutations, &list)?;
            }
        }
    }
    Ok(Small {
        lists,
        permutations,
    })
}

fn check_list(alloc: Global, tally: &mut Tally, list: &[u16]) -> Result<(), AllocError> {
    let right = match plain::first_bad(alloc, list)? {
        Some(bad) => plain::refused(6, bad, plain::record(&[])),
        None => plain::accepted(list),
    };
    tally.count(Permutation::from_list(list) == right);
    Ok(())
}

fn check_permutation(alloc: Global, tally: &mut Tally, list: &[u16]) -> Result<(), AllocError> {
    check_calls(alloc, tally, list, &plain::rotation(alloc, list.len())?)?;
    for i in 0..=list.len() {
        for j in 0..=list.len() {
            check_exchange(alloc, tally, list, i, j)?;
        }
    }
    numbers::of_permutation(tally, list);
    Ok(())
}

// One permutation, alone and before a second one.
fn check_calls(
    alloc: Global,
    tally: &mut Tally,
    list: &[u16],
    second: &[u16],
) -> Result<(), AllocError> {
    let p = plain::record(list);
    let inverse = plain::inverse(alloc, list)?;
    tally.count(p.inverse() == plain::accepted(&inverse));
    tally.count(p.fixed_points() == plain::asked(p));

    let combined = plain::combine(alloc, list, second)?;
    tally.count(p.combine(plain::record(second)) == plain::accepted(&combined));

    // Inverse twice, and combined with the inverse.
    let back = p.inverse().permutation;
    let identity = plain::accepted(&plain::identity(alloc, list.len())?);
    tally.count(back.inverse() == plain::accepted(list));
    tally.count(p.combine(back) == identity);
    tally.count(Permutation::identity(list.len()) == identity);
    Ok(())
}

fn check_exchange(
    alloc: Global,
    tally: &mut Tally,
    list: &[u16],
    i: usize,
    j: usize,
) -> Result<(), AllocError> {
    let n = list.len();
    let p = plain::record(list);
    let right = if n <= i || n <= j {
        plain::refused(14, 0, p)
    } else {
        let mut exchanged = list.to_vec(alloc)?;
        check_cases::exchange(&mut exchanged, i, j);
        plain::accepted(&exchanged)
    };
    tally.count(p.exchange(i, j) == right);
    Ok(())
}

// ---- drawn orders

// Draws of n places, and two drawn orders under the calls.
fn check_shuffle(alloc: Global, tally: &mut Tally, n: usize, seed: u32) -> Result<(), AllocError> {
    draws::check_size(alloc, tally, n, seed)?;
    let first = draws::order(alloc, seed, n)?;
    let second = draws::order(alloc, tally::next(seed), n)?;
    check_list(alloc, tally, &first)?;
    check_calls(alloc, tally, &first, &second)
}

const SIZES: [usize; 12] = [7, 23, 127, 128, 255, 256, 257, 258, 259, 1000, 1023, 1024];

// Sizes 0, 31, 62, .. and those of the list.
fn check_shuffles(alloc: Global) -> Result<Tally, AllocError> {
    let mut tally = Tally::new();
    let mut seed = 20240229u32;
    for n in (0..33).map(|k| k * 31).chain(SIZES) {
        check_shuffle(alloc, &mut tally, n, seed)?;
        seed = tally::next(seed);
    }
    Ok(tally)
}

fn main(rt: HostRuntime) -> io::Result<()> {
    let alloc = rt.alloc();
    let Small {
        lists,
        permutations,
    } = check_small(alloc)?;
    let _ = println!(rt; "lists of up to 6 entries: {lists}");
    let _ = println!(rt;
        "calls on permutations of up to 6 places, true and false numbers: {permutations}"
    );
    let shuffles = check_shuffles(alloc)?;
    let _ = println!(rt; "draws of up to 1024 places, and calls on them: {shuffles}");
    let chains = chains::all(alloc)?;
    let _ = println!(rt; "chains of 50 drawn calls on up to 1024 places: {chains}");
    let limits = draws::limits(alloc)?;
    let _ = println!(rt; "words at the limits, and the largest ones: {limits}");
    let model = draws::model();
    let _ = println!(rt; "the second way with words of 8 bits, 1 to 16 places left: {model}");
    let chosen = numbers::all(alloc)?;
    let _ = println!(rt; "numbers of 1024 places and of ill-formed records: {chosen}");
    let _ = println!(rt; "refusals: {}", refusals::all());
    Ok(())
}
