// Every refusal, with its place and with what comes back.
use crate::plain;
use records::Permutation;
use tally::Tally;

// 0 .. n - 1 with x at place i, and a number that is `off` too high.
pub(crate) fn spoiled(n: usize, i: usize, x: u16, off: usize) -> Permutation {
    let mut p = Permutation::identity(n).permutation;
    if let Some(entry) = p.entries.get_mut(i) {
        *entry = x;
    }
    p.length = n;
    p.fixed = plain::fixed(&p.entries[..n.min(1024)]).wrapping_add(off);
    p
}

// 0 .. n - 1, which nothing is wrong with.
fn good(n: usize) -> Permutation {
    spoiled(n, 0, 0, 0)
}

// A call handed no record: the record of length 0.
fn of_lists(tally: &mut Tally) {
    let none = plain::record(&[]);
    let replies = [
        (Permutation::identity(1025), 1, 0),
        (Permutation::from_list(&[0; 1025]), 1, 0),
        (Permutation::from_list(&[0, 0]), 6, 1),
        (Permutation::from_list(&[1, 0, 3]), 6, 2),
    ];
    for (reply, number, place) in replies {
        tally.count(reply == plain::refused(number, place, none));
    }
}

// First p, then q: refused, and p comes back.
fn of_pair(tally: &mut Tally, p: Permutation, q: Permutation, number: usize, place: usize) {
    tally.count(p.combine(q) == plain::refused(number, place, p));
}

// One ill-formed record under each call that asks; combined with a well-formed one, as the first and as the second.
pub(crate) fn of_record(tally: &mut Tally, p: Permutation, number: usize, place: usize) {
    of_pair(tally, p, good(3), number, place);
    of_pair(tally, good(3), p, number, place);
    tally.count(p.exchange(0, 1) == plain::refused(number, place, p));
    tally.count(p.inverse() == plain::refused(number, place, p));
}

// A length, and one entry of an ill-formed record; the number and the place of the refusal.
const ILL_FORMED: [(usize, usize, u16, usize, usize); 6] = [
    (1025, 0, 9, 1, 0),
    (3, 1, 3, 6, 1),
    (3, 2, 0, 6, 2),
    (3, 5, 1, 6, 5),
    (1024, 1023, 7, 6, 1023),
    (0, 1023, 1, 6, 1023),
];

// Too long, or a bad entry: its place, whether the number is true (off by 0) or false.
fn of_records(tally: &mut Tally) {
    for off in [0, 1] {
        for (n, i, x, number, place) in ILL_FORMED {
            of_record(tally, spoiled(n, i, x, off), number, place);
        }
    }
}

// A well-formed first record: 14, and 1, 6 and 15 of the second.
fn of_seconds(tally: &mut Tally) {
    let p = good(3);
    tally.count(p.exchange(3, 0) == plain::refused(14, 0, p));
    tally.count(p.exchange(0, 3) == plain::refused(14, 0, p));
    of_pair(tally, p, spoiled(1025, 0, 0, 0), 1, 0);
    of_pair(tally, p, spoiled(3, 4, 2, 0), 6, 4);
    of_pair(tally, p, spoiled(4, 2, 1, 0), 6, 2);
    of_pair(tally, p, good(4), 15, 0);
}

// A false number and nothing else: before 14, before all of the second record, and before 15.
fn of_numbers(tally: &mut Tally) {
    let p = spoiled(3, 0, 0, 1);
    tally.count(p.exchange(3, 3) == plain::refused(6, 1024, p));
    of_pair(tally, p, spoiled(1025, 0, 0, 0), 6, 1024);
    of_pair(tally, p, spoiled(3, 0, 3, 0), 6, 1024);
    of_pair(tally, p, good(4), 6, 1024);
    of_pair(tally, good(3), spoiled(4, 0, 0, 1), 6, 1024);
}

// A draw of so many places from so many words, into so much room; and the number of the refusal.
const DRAWS: [(usize, usize, usize, usize); 5] = [
    (1025, 5, 4, 1),
    (5, 4, 4, 13),
    (5, 4, 5, 18),
    (1, 0, 1, 18),
    (1024, 1024, 1023, 13),
];

// Nothing is written.
fn of_shuffles(tally: &mut Tally) {
    let words = tally::words(77);
    for (n, count, room, number) in DRAWS {
        let mut out = [7u16; 1024];
        let drawn = shuffle::shuffle(n, &words[..count], &mut out[..room]);
        let refused = tally::refused(drawn.map(|drawn| drawn.count), number, 0);
        tally.count(refused && out == [7; 1024]);
    }
}

pub(crate) fn all() -> Tally {
    let mut tally = Tally::new();
    of_lists(&mut tally);
    of_records(&mut tally);
    of_seconds(&mut tally);
    of_numbers(&mut tally);
    of_shuffles(&mut tally);
    tally
}
