// The permutation record and its calls (01: open order; 02, F-2: it carries how many entries stay home).
#![tactic(auto)]

ghost use Rattle.std.specs.Prelude.{Ok, Err, ◌≡◌, ◌≤◌, ◌<◌, length};
ghost use Rattle.answers.specs.Answers.{answer_from, answer_with};
ghost use Rattle.answers.specs.Questions.{first_no};
ghost use Rattle.answers.specs.Outcomes.{answer_of};
ghost use Rattle.permutation.specs.Permutations.{identity, exchanged, combined, inverted};
ghost use Rattle.records.specs.Records.{length_asks, questions_of, from_list_asks, exchange_asks, combine_asks};
ghost use Rattle.records.specs.Records.{WellFormed, record_of, list_of, reply_from};
ghost use Rattle.records.specs.Records.{identity_call, from_list_call, exchange_call, combine_call, inverse_call, fixed_points_call};

use answers::{Answer, Reason, Refusal};

// A permutation of 0 .. length - 1 by value; the entries past the length are 0, and `fixed` says how many entries stay home.
// Any record can arrive: the fields are public, so each call but `fixed_points` asks questions 1 and 6 of what it is handed.
#[derive(Clone, Copy, Debug, PartialEq, Eq)]
pub struct Permutation {
    pub length: usize,
    pub entries: [u16; 1024],
    pub fixed: usize,
}

// What a call gives: its answer, and a record. 01 has a refused call give back the record that it was handed, so it is no Result.
#[derive(Clone, Copy, Debug, PartialEq, Eq)]
pub struct Reply {
    pub answer: Answer,
    pub permutation: Permutation,
}

impl Reply {
    fn made(permutation: Permutation) -> Reply
        ensures { result ≡ reply_from (Ok permutation) permutation }
    {
        Reply {
            answer: Ok(0).into(),
            permutation,
        }
    }

    fn refused(refusal: Refusal, handed: Permutation) -> Reply
        ensures { result ≡ reply_from (Err refusal) handed }
    {
        Reply {
            answer: Err(refusal).into(),
            permutation: handed,
        }
    }
}

// The one place where a record is made.
fn build(length: usize, entries: [u16; 1024], fixed: usize) -> Permutation
    ensures { result ≡ record { length = length; entries = entries; fixed = fixed } }
{
    Permutation {
        length,
        entries,
        fixed,
    }
}

// What the asking answers: it follows from the length and the number alone. Public only for the call for C, which need not
// make a record.
pub fn fixed_points_of(n: usize, fixed: usize) -> Result<usize, Refusal>
    ensures { answer_from result ≡ answer_of (first_no (length_asks n)) fixed }
{
    if counts::MOST_PLACES < n {
        return Err(Refusal::of(Reason::Places));
    }
    Ok(fixed)
}

// ---- the records that the calls give

fn identity_record(n: usize) -> Permutation
    requires { n ≤ 1024 }
    ensures { result ≡ record_of (identity n) }
{
    build(n, record_entries::identity(n), n)
}

fn list_record(list: &[u16]) -> Permutation
    requires { length list.now ≤ 1024 }
    ensures { result ≡ record_of list.now }
{
    let made = record_entries::of_list(list);
    build(list.len(), made.entries, made.fixed)
}

fn exchanged_record(p: &Permutation, i: usize, j: usize) -> Permutation
    requires { WellFormed p.now × (p.now.length ≤ 1024) × (i < p.now.length) × (j < p.now.length) }
    ensures { result ≡ record_of (exchanged (list_of p.now) i j) }
{
    let fixed = record_entries::fixed_exchanged(p.fixed, i, p.entries[i], j, p.entries[j]);
    build(p.length, record_entries::exchange(p.entries, i, j), fixed)
}

fn combined_record(first: &Permutation, second: &Permutation) -> Permutation
    requires { WellFormed first.now × (first.now.length ≡ second.now.length) }
    ensures { result ≡ record_of (combined (list_of first.now) (list_of second.now)) }
{
    let n = first.length;
    let made = record_entries::combine(n, &first.entries, &second.entries);
    build(n, made.entries, made.fixed)
}

fn inverted_record(p: &Permutation) -> Permutation
    requires { WellFormed p.now }
    ensures { result ≡ record_of (inverted (list_of p.now)) }
{
    let entries = record_entries::invert(p.length, &p.entries);
    build(p.length, entries, p.fixed)
}

// ---- the calls: each asks its questions, and then makes its record, or gives back the one that it was handed (`identity` and
// `from_list`: the one of length 0). The record goes straight into the reply: in a `Result` it would stand on the stack once more.

impl Permutation {
    // Questions 1 and 6 of a record handed in.
    fn examine(&self) -> Result<(), Refusal>
        ensures { answer_with (λ _. 0) result ≡ answer_of (first_no (questions_of self.now)) 0 }
    {
        record_questions::examine(self.length, &self.entries, self.fixed)
    }

    fn ask_identity(n: usize) -> Result<(), Refusal>
        ensures { answer_with (λ _. 0) result ≡ answer_of (first_no (length_asks n)) 0 }
    {
        if counts::MOST_PLACES < n {
            return Err(Refusal::of(Reason::Places));
        }
        Ok(())
    }

    fn ask_list(list: &[u16]) -> Result<(), Refusal>
        ensures { answer_with (λ _. 0) result ≡ answer_of (first_no (from_list_asks list.now)) 0 }
    {
        if counts::MOST_PLACES < list.len() {
            return Err(Refusal::of(Reason::Places));
        }
        let low = permutation::first_bad_entry(list);
        if low < list.len() {
            return Err(Refusal::at(Reason::Entry, low));
        }
        Ok(())
    }

    fn ask_exchange(&self, i: usize, j: usize) -> Result<(), Refusal>
        ensures { answer_with (λ _. 0) result ≡ answer_of (first_no (exchange_asks self.now i j)) 0 }
    {
        self.examine()?;
        if self.length <= i {
            return Err(Refusal::of(Reason::Place));
        }
        if self.length <= j {
            return Err(Refusal::of(Reason::Place));
        }
        Ok(())
    }

    fn ask_combine(&self, second: &Permutation) -> Result<(), Refusal>
        ensures { answer_with (λ _. 0) result ≡ answer_of (first_no (combine_asks self.now second.now)) 0 }
    {
        self.examine()?;
        second.examine()?;
        if self.length != second.length {
            return Err(Refusal::of(Reason::OneLength));
        }
        Ok(())
    }

    // Each place to itself (01: fresh).
    pub fn identity(n: usize) -> Reply
        ensures { result ≡ identity_call n }
    {
        match Permutation::ask_identity(n) {
            Ok(()) => Reply::made(identity_record(n)),
            Err(refusal) => Reply::refused(refusal, identity_record(0)),
        }
    }

    pub fn from_list(list: &[u16]) -> Reply
        ensures { result ≡ from_list_call list.now }
    {
        match Permutation::ask_list(list) {
            Ok(()) => Reply::made(list_record(list)),
            Err(refusal) => Reply::refused(refusal, identity_record(0)),
        }
    }

    pub fn exchange(self, i: usize, j: usize) -> Reply
        ensures { result ≡ exchange_call self i j }
    {
        match self.ask_exchange(i, j) {
            Ok(()) => Reply::made(exchanged_record(&self, i, j)),
            Err(refusal) => Reply::refused(refusal, self),
        }
    }

    // First self, then second: entry i is second[self[i]].
    pub fn combine(self, second: Permutation) -> Reply
        ensures { result ≡ combine_call self second }
    {
        match self.ask_combine(&second) {
            Ok(()) => Reply::made(combined_record(&self, &second)),
            Err(refusal) => Reply::refused(refusal, self),
        }
    }

    pub fn inverse(self) -> Reply
        ensures { result ≡ inverse_call self }
    {
        match self.examine() {
            Ok(()) => Reply::made(inverted_record(&self)),
            Err(refusal) => Reply::refused(refusal, self),
        }
    }

    // The number of entries that stay home as the record carries it, as the count of the answer; the record comes back as it
    // was handed in.
    pub fn fixed_points(self) -> Reply
        ensures { result ≡ fixed_points_call self }
    {
        Reply {
            answer: fixed_points_of(self.length, self.fixed).into(),
            permutation: self,
        }
    }
}
