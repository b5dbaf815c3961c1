// Runs `ranked_order` on every number of up to 6 places, against the step from an order to the next one and against set on that
// order (check_replay runs the logs). Prints how much was compared and how much of it was equal.
#![tactic(auto)]

mod step;

ghost use Rattle.std.specs.Prelude.{◌≤◌};

use std::io;
use tally::Tally;

// ---- one call, into buffers full of what no order, setting or log of up to 6 places has

#[derive(Clone, Copy, PartialEq, Eq)]
struct Buffers {
    list: [u16; 8],
    bits: [u8; 16],
    log: [u16; 160],
}

const UNWRITTEN: Buffers = Buffers {
    list: [7; 8],
    bits: [7; 16],
    log: [77; 160],
};

// Order r of n places: the right one, with the answer, the bits and the log of set on it; and the log is the first one.
fn compare(tally: &mut Tally, n: usize, r: usize, w: usize, right: [u16; 8], first: &[u16; 160])
    requires { (n ≤ 6) × (w ≤ 16) }
{
    let mut made = UNWRITTEN;
    let a = listed_order::ranked_order(n, r, &mut made.list, &mut made.bits[..w], &mut made.log);
    let mut set = UNWRITTEN;
    let b = control::control_bits(&right[..n], &mut set.bits[..w], &mut set.log);
    set.list = right;
    tally.count(a == b && made == set);
    tally.count(tally::same_words(&made.log, first));
}

// A call for order `rank` of so many places, into the fronts of such buffers, and the question that gets a no.
#[derive(Clone, Copy)]
struct Call {
    places: usize,
    rank: usize,
    list: usize,
    bits: usize,
    words: usize,
    question: usize,
    ghost within: { (list ≤ 8) × (bits ≤ 16) × (words ≤ 160) },
}

impl Call {
    fn of(
        places: usize,
        rank: usize,
        list: usize,
        bits: usize,
        words: usize,
        question: usize,
    ) -> Call
        requires { (list ≤ 8) × (bits ≤ 16) × (words ≤ 160) }
    {
        Call {
            places,
            rank,
            list,
            bits,
            words,
            question,
        }
    }
}

// Refused, and all three as they were.
fn refused(tally: &mut Tally, call: Call) {
    let mut made = UNWRITTEN;
    let list = &mut made.list[..call.list];
    let bits = &mut made.bits[..call.bits];
    let log = &mut made.log[..call.words];
    let a = listed_order::ranked_order(call.places, call.rank, list, bits, log);
    tally.count(tally::refused(a, call.question, 0) && made == UNWRITTEN);
}

// ---- every order of a length

// The log of order 0, written into no more room than it needs.
fn first_log(n: usize, w: usize, words: usize) -> [u16; 160]
    requires { (n ≤ 6) × (w ≤ 16) × (words ≤ 160) }
{
    let mut made = UNWRITTEN;
    let list = &mut made.list[..n];
    let _ = listed_order::ranked_order(n, 0, list, &mut made.bits[..w], &mut made.log[..words]);
    made.log
}

// All `count` orders of n places, of w bits and a log of so many words. Behind the last there is none, and no number.
fn check_length(tally: &mut Tally, n: usize, count: usize, w: usize, words: usize)
    requires { (n ≤ 6) × (w ≤ 16) × (words ≤ 160) }
{
    let first = first_log(n, w, words);
    let mut order = step::start(n);
    for r in 1..=count {
        compare(tally, n, r - 1, w, order, &first);
        let more = step::next(&mut order[..n]);
        tally.count(more == (r < count));
    }
    refused(tally, Call::of(n, count, 8, w, words, 14));
}

// Places, orders of them, bits of a setting and words of its log.
const LENGTHS: [(usize, usize, usize, usize); 7] = [
    (0, 1, 0, 0),
    (1, 1, 0, 0),
    (2, 2, 1, 8),
    (3, 6, 3, 44),
    (4, 24, 5, 52),
    (5, 120, 8, 100),
    (6, 720, 11, 136),
];

fn check_lengths() -> Tally {
    let mut tally = Tally::new();
    for (n, count, w, words) in LENGTHS {
        check_length(&mut tally, n, count, w, words);
    }
    tally
}

// ---- refusals: each question gets a no alone, and with each later one. 5 places have 120 orders, 8 bits and a log of 100 words,
// 7 places 5,040 orders, 14 bits and a log of 156 words.

fn refused_calls() -> [Call; 28] {
    [
        Call::of(7, 5039, 7, 14, 156, 17),
        Call::of(7, 5040, 7, 14, 156, 17),
        Call::of(7, 0, 6, 14, 156, 17),
        Call::of(7, 0, 7, 13, 156, 17),
        Call::of(7, 0, 7, 14, 155, 17),
        // Lengths that would do if only some of their bits were read.
        Call::of(18446744073709551615, 0, 8, 16, 160, 17),
        Call::of(4294967301, 0, 5, 8, 100, 17),
        Call::of(65541, 0, 5, 8, 100, 17),
        Call::of(5, 120, 5, 8, 100, 14),
        Call::of(5, 120, 4, 8, 100, 14),
        Call::of(5, 120, 5, 9, 100, 14),
        Call::of(5, 120, 5, 8, 99, 14),
        // Numbers that would do if only some of their bits were read.
        Call::of(5, 18446744073709551615, 5, 8, 100, 14),
        Call::of(5, 4294967296, 5, 8, 100, 14),
        Call::of(5, 65536, 5, 8, 100, 14),
        Call::of(5, 119, 4, 8, 100, 13),
        Call::of(5, 119, 4, 7, 100, 13),
        Call::of(5, 119, 4, 8, 99, 13),
        Call::of(5, 119, 5, 7, 100, 4),
        Call::of(5, 119, 5, 9, 100, 4),
        Call::of(5, 119, 5, 7, 99, 4),
        Call::of(5, 119, 5, 8, 99, 5),
        Call::of(5, 119, 8, 8, 0, 5),
        Call::of(0, 0, 0, 1, 0, 4),
        // Buffers for 6 places, a log of three words an entry among them.
        Call::of(6, 719, 5, 11, 136, 13),
        Call::of(6, 719, 6, 10, 136, 4),
        Call::of(6, 719, 6, 11, 102, 5),
        Call::of(6, 719, 6, 11, 135, 5),
    ]
}

fn check_refusals() -> Tally {
    let mut tally = Tally::new();
    for call in refused_calls() {
        refused(&mut tally, call);
    }
    tally
}

fn main(rt: HostRuntime) -> io::Result<()> {
    let _ = println!(rt; "all orders of up to 6 places: {}", check_lengths());
    let _ = println!(rt; "refusals: {}", check_refusals());
    Ok(())
}
