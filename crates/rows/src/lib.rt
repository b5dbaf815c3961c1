// Rows of numbers, each where the one before ends, read and written. A sheet and an order are such rows. Public for the crates
// that read and write these, and so with a `requires`.
#![tactic(auto)]

ghost use Rattle.std.specs.Prelude.{◌≡◌, ◌≤◌, ◌+◌, ◌*◌, length};
ghost use Rattle.answers.specs.Buffers.{Put};
ghost use Rattle.numbers.specs.Numbers.{sevens};
ghost use Rattle.rows.specs.Rows.{numbers_bytes, numbers_questions, numbers_at, row_end, Fourteens, Row};

use answers::Refusal;

/// Where a row ends: the place of its last number, and the place after it.
#[derive(Clone, Copy, Debug, PartialEq, Eq)]
pub struct RowEnd {
    pub last: usize,
    pub next: usize,
}

/// k numbers from a place on, to the front of values.
pub fn read_row(input: &[u8], start: usize, k: usize, values: &mut [u16]) -> Result<RowEnd, Refusal>
    requires { k ≤ length values.old }
    ensures { Row (numbers_questions sevens k input.now start) (row_end sevens k input.now start) k
        (numbers_at sevens k input.now start) values.new result }
{
    let mut last = start;
    let mut at = start;
    for value in &mut values[..k] {
        let number = numbers::read_number(input, at)?;
        *value = number.value as u16;
        last = at;
        at = number.next;
    }
    Ok(RowEnd { last, next: at })
}

/// The bytes of the numbers, from a place of buf on. The answer is the place after them.
pub fn put_row(row: &[u16], buf: &mut [u8], start: usize) -> usize
    requires { (start + 2 * length row.now ≤ length buf.old) × Fourteens row.now }
    ensures { Put buf.old start (numbers_bytes sevens row.now) result buf.new }
{
    let mut at = start;
    for value in row {
        at = numbers::put_number(buf, at, usize::from(*value));
    }
    at
}
