// The streams of a program: what an argument says, what a read gives, and which bytes go to which stream. Nothing here reads
// or writes.
#![tactic(auto)]

ghost use Rattle.std.specs.Prelude.{◌≡◌, ◌+◌, ◌≤◌, eqb, IfSome};
ghost use Rattle.answers.specs.Buffers.{Put};
ghost use Rattle.cmd_arguments.specs.Decimal.{decimal_in};
ghost use Rattle.cmd_arguments.specs.Reading.{got_of};
ghost use Rattle.cmd_arguments.specs.Streams.{output_of, error_of};

use answers::Answer;

// ---- arguments

// Larger numbers count as this one, which each question about a number of blocks or a width refuses.
const MOST: usize = 10000;

/// The value of one or more decimal digits; none of any other text.
pub fn decimal(text: &[u8]) -> Option<usize>
    ensures { result ≡ decimal_in text.now }
{
    if text.is_empty() {
        return None;
    }
    let mut v = 0;
    for b in text {
        let digit = match b {
            b'0'..=b'9' => b - b'0',
            _ => return None,
        };
        v = (v * 10 + usize::from(digit)).min(MOST);
    }
    Some(v)
}

// Whether what a program was started with, its own name among it, is k arguments.
pub fn are_arguments(all: usize, k: usize) -> bool
    ensures { result ≡ eqb all (k + 1) }
{
    0 < all && all - 1 == k
}

// ---- what is read

/// What a count that is short of the buffer, and the answer of one more read, come to: the count, or none where the reading failed.
pub fn short_read(count: usize, after: isize) -> Option<usize>
    ensures { (result ≡ got_of count after) × IfSome result (λ n. n ≤ count) }
{
    if after == 0 { Some(count) } else { None }
}

// ---- what is written

/// How many of the bytes made go to standard output: all, or none where the call was refused.
pub fn output_length(answer: Answer, made: usize) -> usize
    ensures { (result ≡ output_of answer made) × (result ≤ made) }
{
    if answer.number == 0 { made } else { 0 }
}

/// The text for standard error, over the front of line: the line of a refusal, or nothing.
pub fn error_text(answer: Answer, line: &mut [u8; 53]) -> usize
    ensures { Put line.old 0 (error_of answer) result line.new }
{
    if answer.number == 0 {
        return 0;
    }
    cmd_text::put_refusal(line, answer)
}
