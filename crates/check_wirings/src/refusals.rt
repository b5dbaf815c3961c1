// Every set of faults at five places of six bytes, which have 30 bytes, 8 bits and a log of 32 words (of 100 for set): the first question
// in sequence is the one named, and all buffers stay as they were.
ghost use Rattle.std.specs.Prelude.{◌<◌, ◌≤◌, max};

use answers::Refusal;
use tally::Tally;
use wirings::Topology;

// A number whose binary digit q says whether question q gets a no, and digit 0 whether a length is then too small, or else too large; a
// log is then a word short at each entry, or one word short. The converter asks no 5; here that is its second 4.
#[derive(Clone, Copy)]
struct Faults(u8);

impl Faults {
    fn has(self, q: u32) -> bool
        requires { q < 8 }
    {
        self.0 >> q & 1 == 1
    }

    // Whether every digit that is 1 is among these.
    fn are_among(self, digits: u8) -> bool {
        self.0 | digits == digits
    }

    // What question q is asked of.
    fn pick(self, q: u32, low: usize, high: usize, right: usize) -> usize
        requires { q < 8 }
        ensures { result ≤ max low (max high right) }
    {
        if !self.has(q) {
            right
        } else if self.has(0) {
            low
        } else {
            high
        }
    }

    // The first question that gets a no.
    fn first(self) -> usize {
        (self.0 & 0b1111_1110).trailing_zeros() as usize
    }
}

// Entries and bytes are bad from place 2 on.
fn is_refused(answer: Result<usize, Refusal>, number: usize) -> bool {
    let place = if 5 < number { 2 } else { 0 };
    tally::refused(answer, number, place)
}

// ---- set: 1, 4, 5, 6

fn order(bad: bool) -> [u16; 1025] {
    let mut order = [0; 1025];
    let start = if bad {
        [3, 1, 3, 0, 5]
    } else {
        [3, 1, 4, 0, 2]
    };
    order[..5].copy_from_slice(&start);
    order
}

fn of_set(tally: &mut Tally, faults: Faults) {
    if !faults.are_among(0b0111_0011) {
        return;
    }
    let order = order(faults.has(6));
    let n = faults.pick(1, 1025, 1025, 5);
    let w = faults.pick(4, 7, 9, 8);
    let words = faults.pick(5, 75, 99, 100);
    let mut bits = [33; 64];
    let mut log = [77; 128];
    let answer = control::control_bits_in(
        Topology::Neighbour,
        &order[..n],
        &mut bits[..w],
        &mut log[..words],
    );
    tally.count(is_refused(answer, faults.first()));
    tally.compare(&bits, &[33; 64]);
    tally.count(tally::same_words(&log, &[77; 128]));
}

// ---- mix and return: 1, 2, 3, 4, 5, 7

fn setting(bad: bool) -> [u8; 16] {
    let mut bits = [1; 16];
    bits[2] = if bad { 2 } else { 0 };
    bits[6] = if bad { 255 } else { 1 };
    bits
}

fn of_move<F>(tally: &mut Tally, faults: Faults, call: F)
where
    F: Fn(Topology, usize, usize, &mut [u8], &[u8], &mut [u16]) -> Result<usize, Refusal>,
    requires { F.IsAlwaysCallable call }
{
    if !faults.are_among(0b1011_1111) {
        return;
    }
    let n = faults.pick(1, 1025, 1025, 5);
    let width = faults.pick(2, 0, 257, 6);
    let bits = setting(faults.has(7));
    let bytes = faults.pick(3, 29, 31, 30);
    let w = faults.pick(4, 7, 9, 8);
    let words = faults.pick(5, 24, 31, 32);
    let mut blocks = [33; 64];
    let mut log = [77; 128];
    let answer = call(
        Topology::Neighbour,
        n,
        width,
        &mut blocks[..bytes],
        &bits[..w],
        &mut log[..words],
    );
    tally.count(is_refused(answer, faults.first()));
    tally.compare(&blocks, &[33; 64]);
    tally.count(tally::same_words(&log, &[77; 128]));
}

// ---- the converter: 1, 4 of the given setting, 4 of the one to be written, 7

fn of_convert(tally: &mut Tally, faults: Faults, from: Topology) {
    if !faults.are_among(0b1011_0011) {
        return;
    }
    let given = setting(faults.has(7));
    let n = faults.pick(1, 1025, 1025, 5);
    let w = faults.pick(4, 7, 9, 8);
    let room = faults.pick(5, 7, 9, 8);
    let mut out = [33; 64];
    let answer = convert::convert(from, n, &given[..w], &mut out[..room]);
    let number = match faults.first() {
        5 => 4,
        first => first,
    };
    tally.count(is_refused(answer, number));
    tally.compare(&out, &[33; 64]);
}

pub(crate) fn all() -> Tally {
    let mut tally = Tally::new();
    for faults in (2..=255).map(Faults) {
        of_set(&mut tally, faults);
        of_move(&mut tally, faults, apply::apply_in);
        of_move(&mut tally, faults, apply::apply_inverse_in);
        of_convert(&mut tally, faults, Topology::Paper);
        of_convert(&mut tally, faults, Topology::Neighbour);
    }
    tally
}
