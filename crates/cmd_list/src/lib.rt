// The text that the program `list` prints, as a function on slices.
#![tactic(auto)]

ghost use Rattle.std.specs.Prelude.{◌≡◌, ◌+◌, ◌≤◌, ◌<◌, length, replicate};
ghost use Rattle.answers.specs.Questions.{first_no};
ghost use Rattle.answers.specs.Buffers.{Put};
ghost use Rattle.numbers.specs.Reading.{ReadAs};
ghost use Rattle.orders_listed.specs.Ranks.{factorial};
ghost use Rattle.cmd_text.specs.Written.{written};
ghost use Rattle.cmd_list.specs.Listing.{order_line, orders_of, length_in, list_questions, list_room, list_call};

use answers::{Reason, Refusal};
use numbers::Number;

// Room for a length of 6 or less, which has one byte, and a byte more, so that a surplus shows; or for a longer one, which is refused.
pub const LIST_ROOM: usize = 2;

// What the program reads into. So many bytes lose nothing (proofs/Asking, `list_cut`).
pub fn input_buffer() -> [u8; LIST_ROOM]
    ensures { (list_room ≡ length result) × (result ≡ replicate list_room 0) }
{
    [0; LIST_ROOM]
}

// What `list` prints for an input, over the front of out, and its length. The longest text is that of 6 places: 720 lines of 24
// bytes.
pub fn orders_text(input: &[u8], out: &mut [u8; 17280]) -> usize
    ensures { written result out.new ≡ list_call input.now out.old }
{
    match read_length(input) {
        Ok(n) => put_orders(out, n),
        Err(refused) => cmd_text::put_refusal(out, Err(refused).into()),
    }
}

// The length that an input holds, if it is short enough and the input ends there.
fn read_length(input: &[u8]) -> Result<usize, Refusal>
    ensures { ReadAs (first_no (list_questions input.now)) (length_in input.now) result }
{
    let Number { value: n, next } = numbers::read_number(input, 0)?;
    if 6 < n {
        return Err(Refusal::of(Reason::SmallOrder));
    }
    if next < input.len() {
        return Err(Refusal::at(Reason::InputEnd, next));
    }
    Ok(n)
}

// A line for each order of n places, over the front of out.
fn put_orders(out: &mut [u8; 17280], n: usize) -> usize
    requires { n ≤ 6 }
    ensures { Put out.old 0 (orders_of n) result out.new }
{
    let total = usize::from(orders_listed::count_orders(n));
    let mut at = 0;
    for r in 0..total {
        at = put_order(out, at, n, r);
    }
    at
}

// The line of the r-th order of n places. 6 places have 11 switches, and the setter logs 34 entries for them.
fn put_order(out: &mut [u8], at: usize, n: usize, r: usize) -> usize
    requires { (n ≤ 6) × (r < factorial n) × (at + 24 ≤ length out.old) }
    ensures { Put out.old at (order_line n r) result out.new }
{
    let mut order = [0u16; 6];
    let mut bits = [0u8; 11];
    let mut log = [0u16; entry_log::ENTRY_WORDS * 34];
    let w = counts::switches(n);
    listed_order::ranked_order(n, r, &mut order, &mut bits[..w], &mut log).unwrap(); // no question gets a no
    cmd_list_line::put_line(out, at, &order[..n], &bits[..w])
}
