// What the check programs compare and count with; no part of the mixer.
#![tactic(auto)]

ghost use Rattle.std.specs.Prelude.{◌≡◌, ◌+◌, ◌%◌, ◌^◌, ◌≤◌, ◌↔◌, IsTrue};
ghost use Rattle.answers.specs.Answers.{answer_from, refusal};
ghost use Rattle.tally.specs.Tallies.{nothing, one, counted, block_bytes, random, scrambled, after, Holds};

use answers::{Answer, Refusal};
use std::fmt;

// How many outcomes were compared, and how many of them were equal.
#[derive(Clone, Copy, Debug)]
pub struct Tally {
    pub compared: u64,
    pub equal: u64,
}

impl Tally {
    pub fn new() -> Self
        ensures { result ≡ nothing }
    {
        Tally {
            compared: 0,
            equal: 0,
        }
    }

    // One more was compared, and it was equal or not.
    pub fn count(&mut self, same: bool)
        ensures { self.new ≡ counted self.old same }
    {
        self.compared = self.compared.wrapping_add(1);
        self.equal = self.equal.wrapping_add(u64::from(same));
    }

    // One more was compared, and the two were equal or not.
    pub fn compare<T: PartialEq>(&mut self, found: &T, right: &T)
        ensures { self.new ≡ counted self.old (T.eq found.now right.now) }
    {
        self.count(*found == *right);
    }
}

// What is written out cannot be promised.
impl fmt::Display for Tally {
    fn fmt<W: fmt::Write>(&self, f: &mut fmt::Formatter<W>) -> fmt::Result {
        let compared = self.compared;
        let equal = self.equal;
        write!(f, "compared {compared}, equal {equal}")
    }
}

// Whether a call gave these three numbers: a question's, or 0; a place; a count.
pub fn answered(given: Result<usize, Refusal>, number: usize, place: usize, count: usize) -> bool
    ensures { IsTrue result ↔ (answer_from given ≡ record { number = number; place = place; count = count }) }
{
    let right = Answer {
        number,
        place,
        count,
    };
    Answer::from(given) == right
}

// Whether a call was refused by this question, at this place.
pub fn refused(given: Result<usize, Refusal>, number: usize, place: usize) -> bool
    ensures { IsTrue result ↔ (answer_from given ≡ refusal number place) }
{
    answered(given, number, place, 0)
}

// Whether two slices hold the same words: true is said of such, and only of such.
pub fn same_words(a: &[u16], b: &[u16]) -> bool
    ensures { IsTrue result ↔ (a.now ≡ b.now) }
{
    a == b
}

// The bytes of n blocks, where n and the width are what a call takes; else 0.
pub fn times(n: usize, width: usize) -> usize
    ensures { (result ≤ 262144) × (result ≡ block_bytes n width) }
{
    if 1024 < n {
        return 0;
    }
    if 256 < width {
        return 0;
    }
    n * width
}

// ---- what the second computations share

// Two pseudo-random sequences, each number from the one before.
pub fn random(x: u32) -> u32
    ensures { result ≡ random x }
{
    (x % 65537 * 75 + 74) % 65537
}

pub fn next(x: u32) -> u32
    ensures { result ≡ scrambled x }
{
    let a = x ^ (x << 13);
    let b = a ^ (a >> 17);
    b ^ (b << 5)
}

// The second sequence behind a seed.
pub fn words(seed: u32) -> [u32; 1024]
    ensures { Holds (λ i. after (i + 1) seed) 1024 result }
{
    let mut out = [0u32; 1024];
    let mut x = seed;
    for word in out.iter_mut() {
        x = next(x);
        *word = x;
    }
    out
}
