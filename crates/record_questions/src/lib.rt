// Questions 1 and 6 of what a permutation record holds (01: open order; 02, F-2: 6 of its number of entries that stay home).
// What is required here, the record's own type and question 1 ensure (crate records).
#![tactic(auto)]

ghost use Rattle.std.specs.Prelude.{◌≡◌, ◌≤◌, ◌<◌, eqb, length};
ghost use Rattle.answers.specs.Answers.{answer_with};
ghost use Rattle.answers.specs.Questions.{first_bad, first_no};
ghost use Rattle.answers.specs.Outcomes.{answer_of};
ghost use Rattle.permutation.specs.Permutations.{bit, fixed_points};
ghost use Rattle.record_questions.specs.Questions.{good_in_record, record_asks};

use answers::{Reason, Refusal};

// 1 where the entry x at place i stays home, in 16 bits so that a loop takes several entries at a time.
pub fn home(x: u16, i: usize) -> u16
    requires { i < 1024 }
    ensures { (result ≡ bit (eqb x i)) × (result ≤ 1) }
{
    u16::from(x == i as u16)
}

// Question 6 of a record's entries: its list, and past that nothing but 0. 1,024 where nothing is bad.
fn first_bad(n: usize, e: &[u16; 1024]) -> usize
    requires { n ≤ 1024 }
    ensures { result ≡ first_bad (good_in_record n e.now) 1024 }
{
    let mut low = permutation::first_bad_entry(&e[..n]);
    for i in n..1024 {
        low = permutation::sweep(low, i, e[i] == 0);
    }
    low
}

// How many entries stay home. Public only for the records that calls make.
pub fn fixed_points(list: &[u16]) -> usize
    requires { length list.now ≤ 1024 }
    ensures { result ≡ fixed_points list.now }
{
    let mut c = 0u16;
    for (i, x) in list.iter().enumerate() {
        c += home(*x, i);
    }
    usize::from(c)
}

// Questions 1 and 6 of a record handed in.
pub fn examine(n: usize, e: &[u16; 1024], fixed: usize) -> Result<(), Refusal>
    ensures { answer_with (λ _. 0) result ≡ answer_of (first_no (record_asks n e.now fixed)) 0 }
{
    if counts::MOST_PLACES < n {
        return Err(Refusal::of(Reason::Places));
    }
    let low = first_bad(n, e);
    if low < 1024 {
        return Err(Refusal::at(Reason::Entry, low));
    }
    let home = fixed_points(&e[..n]);
    if fixed != home {
        return Err(Refusal::at(Reason::Entry, 1024));
    }
    Ok(())
}
