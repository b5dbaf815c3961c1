// An order as the programs read it (01, 'The program "settings"'): a count and that many entries, as sheet numbers; and the
// setting of it.
#![tactic(auto)]

ghost use Rattle.std.specs.Prelude.{◌≡◌, ◌≤◌, length, replicate};
ghost use Rattle.rows.specs.Rows.{Row};
ghost use Rattle.cmd_read_order.specs.Orders.{order_room, count_in, order_in, form_questions, entry_questions, set_report, report_of, order_report};

use answers::{Reason, Refusal};
use numbers::Number;

// Room for the longest order, which has 2,050 bytes, and a byte more, so that a surplus shows.
pub const ORDER_ROOM: usize = 2051;

// What a program reads an order into. So many bytes lose nothing (proofs/Cut).
pub fn input_buffer() -> [u8; ORDER_ROOM]
    ensures { (order_room ≡ length result) × (result ≡ replicate order_room 0) }
{
    [0; ORDER_ROOM]
}

// An order was set: its places, and the number of entries that the setter logged.
#[derive(Clone, Copy, Debug, PartialEq, Eq)]
pub struct OrderSet {
    pub places: usize,
    pub entries: usize,
}

// The count and its entries, and whether the input ends there. The entries go to the front of order.
fn read_order(input: &[u8], order: &mut [u16; 1024]) -> Result<usize, Refusal>
    ensures { Row (form_questions input.now) (count_in input.now)
        (count_in input.now) (order_in input.now) order.new result }
{
    let Number { value: n, next: at } = numbers::read_number(input, 0)?;
    if counts::MOST_PLACES < n {
        return Err(Refusal::of(Reason::Places));
    }
    let end = rows::read_row(input, at, n, order)?.next;
    if end < input.len() {
        return Err(Refusal::at(Reason::InputEnd, end));
    }
    Ok(n)
}

// Question 6, and the setting over the front of bits.
fn set(order: &[u16], bits: &mut [u8; counts::MOST_SWITCHES]) -> Result<OrderSet, Refusal>
    requires { length order.now ≤ 1024 }
    ensures { report_of result bits.new
        ≡ set_report (entry_questions order.now) (length order.now) order.now bits.old }
{
    let bad = permutation::first_bad_entry(order);
    if bad != order.len() {
        return Err(Refusal::at(Reason::Entry, bad));
    }
    let w = counts::switches(order.len());
    let entries = setting_order::setting_of_order(order, &mut bits[..w]);
    Ok(OrderSet {
        places: order.len(),
        entries,
    })
}

// The setting of the order that an input holds, over the front of bits. A refusal leaves the bits alone. 9,217 bits are enough
// for each order.
pub fn order_setting(
    input: &[u8],
    bits: &mut [u8; counts::MOST_SWITCHES],
) -> Result<OrderSet, Refusal>
    ensures { report_of result bits.new ≡ order_report input.now bits.old }
{
    let mut order = [0u16; 1024];
    let n = read_order(input, &mut order)?;
    set(&order[..n], bits)
}
