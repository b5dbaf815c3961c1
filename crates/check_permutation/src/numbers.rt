// The number that a record carries, of entries that stay home: true and false ones, under every call that takes a record.
use crate::{check_calls, check_exchange, draws, plain, refusals};
use records::Permutation;
use std::alloc::{AllocError, Global};
use tally::Tally;

// One permutation with a false number: it is told where it is asked for, and else refused as bad at place 1,024.
fn of_false(tally: &mut Tally, list: &[u16], number: usize) {
    let p = plain::numbered(list, number);
    told(tally, p);
    refusals::of_record(tally, p, 6, 1024);
}

// One permutation with each false number from 0 to n + 1.
pub(crate) fn of_permutation(tally: &mut Tally, list: &[u16]) {
    let right = plain::fixed(list);
    for number in 0..list.len() + 2 {
        if number != right {
            of_false(tally, list, number);
        }
    }
}

// 1,024 places: the calls do their work with the true number. False are its neighbours, and two that differ from it only above
// 16 and above 32 bits.
fn of_large(alloc: Global, tally: &mut Tally, list: &[u16]) -> Result<(), AllocError> {
    let right = plain::fixed(list);
    for more in [1, usize::MAX, 65536, 4294967296] {
        of_false(tally, list, right.wrapping_add(more));
    }
    check_calls(alloc, tally, list, &plain::rotation(alloc, 1024)?)?;
    check_exchange(alloc, tally, list, 0, 1)
}

// ---- the asking of records that no other call takes

// The number that the record carries, whatever its entries.
fn told(tally: &mut Tally, p: Permutation) {
    tally.count(p.fixed_points() == plain::asked(p));
}

// A length, and one entry of an ill-formed record.
const BAD: [(usize, usize, u16); 5] = [
    (3, 1, 3),
    (3, 2, 0),
    (3, 5, 1),
    (1024, 1023, 7),
    (0, 1023, 1),
];

// A length above 1,024, and a number.
const LONG: [(usize, usize); 4] = [
    (1025, 0),
    (1025, 1025),
    (65536, 1024),
    (usize::MAX, usize::MAX),
];

pub(crate) fn all(alloc: Global) -> Result<Tally, AllocError> {
    let mut tally = Tally::new();
    of_large(alloc, &mut tally, &plain::identity(alloc, 1024)?)?;
    of_large(alloc, &mut tally, &plain::rotation(alloc, 1024)?)?;
    of_large(alloc, &mut tally, &draws::order(alloc, 1024, 1024)?)?;

    // With the true number, with one more, and with one less (below 0 the last one).
    for (n, i, x) in BAD {
        for off in [0, 1, usize::MAX] {
            told(&mut tally, refusals::spoiled(n, i, x, off));
        }
    }

    // Refused, and it comes back.
    for (length, fixed) in LONG {
        let p = Permutation {
            length,
            entries: [9; 1024],
            fixed,
        };
        tally.count(p.fixed_points() == plain::refused(1, 0, p));
    }
    Ok(tally)
}
