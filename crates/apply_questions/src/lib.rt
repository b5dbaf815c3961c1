// The questions of mix and return. The bits are secret: one decision is taken from them, that of question 7; every other branch
// follows from n, the width and lengths. Public for the crate `apply`.
#![tactic(auto)]

ghost use Rattle.std.specs.Prelude.{◌≡◌};
ghost use Rattle.answers.specs.Answers.{answer_with};
ghost use Rattle.answers.specs.Questions.{first_no};
ghost use Rattle.answers.specs.Outcomes.{answer_of};
ghost use Rattle.apply_questions.specs.Questions.{apply_questions};

use answers::{Reason, Refusal};

// Questions 1, 2, 3, 4, 5, 7 in their sequence: the refusal of the first that gets a no.
pub fn ask(n: usize, width: usize, filled: usize, bits: &[u8], room: usize) -> Result<(), Refusal>
    ensures { answer_with (λ asked. 0) result
        ≡ answer_of (first_no (apply_questions n width filled bits.now room)) 0 }
{
    if counts::MOST_PLACES < n {
        return Err(Refusal::of(Reason::Places));
    }
    if width < 1 {
        return Err(Refusal::of(Reason::Width));
    }
    if 256 < width {
        return Err(Refusal::of(Reason::Width));
    }
    if filled != n * width {
        return Err(Refusal::of(Reason::BlockBytes));
    }
    let due = counts::switches(n);
    if bits.len() != due {
        return Err(Refusal::of(Reason::BitCount));
    }
    if room < entry_log::ENTRY_WORDS * due {
        return Err(Refusal::of(Reason::LogRoom));
    }
    let bad = bits::first_bad_bit(bits);
    if bad != bits.len() {
        return Err(Refusal::at(Reason::BitByte, bad));
    }
    Ok(())
}
