// The number reader: a number in one or two bytes, at a place of an input; and the writer of one number.
#![tactic(auto)]

ghost use Rattle.std.specs.Prelude.{◌≡◌, ◌+◌, ◌≤◌, ◌<◌, length};
ghost use Rattle.answers.specs.Buffers.{Put};
ghost use Rattle.numbers.specs.Numbers.{number_bytes, number_at};
ghost use Rattle.numbers.specs.Reading.{meaning};

use answers::{Reason, Refusal};

/// A number that was read, and the place after it.
#[derive(Clone, Copy, Debug, PartialEq, Eq)]
pub struct Number {
    pub value: usize,
    pub next: usize,
}

/// Questions 8 and 9 at a place of the input, or past its end.
pub fn read_number(input: &[u8], at: usize) -> Result<Number, Refusal>
    ensures { meaning result ≡ number_at input.now at }
{
    let no_byte = Refusal::at(Reason::NextByte, input.len());
    let bad_form = Refusal::at(Reason::ShortestForm, at);
    if input.len() <= at {
        return Err(no_byte);
    }
    let low = usize::from(input[at]);
    if low < 128 {
        return Ok(Number {
            value: low,
            next: at + 1,
        });
    }
    let second = at + 1;
    if input.len() <= second {
        return Err(no_byte);
    }
    let high = usize::from(input[second]);
    if high == 0 || 128 <= high {
        return Err(bad_form);
    }
    Ok(Number {
        value: low % 128 + high * 128,
        next: at + 2,
    })
}

/// A number's bytes, at a place of buf. The answer is the place after them. Public for the crates that write numbers, and so
/// with a `requires` of its own.
pub fn put_number(buf: &mut [u8], at: usize, v: usize) -> usize
    requires { (v < 16384) × (at + 2 ≤ length buf.old) }
    ensures { Put buf.old at (number_bytes v) result buf.new }
{
    if v < 128 {
        buf[at] = v as u8;
        return at + 1;
    }
    let second = at + 1;
    buf[at] = (v % 128 + 128) as u8;
    buf[second] = (v / 128) as u8;
    at + 2
}
