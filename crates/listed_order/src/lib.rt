// The r-th order of n places in dictionary order, with its setting and set's log (02, F-3): questions 17, 14, 13, 4, 5; then the
// order, and the setter.
// Hidden: r, the order's entries and the bits. No branch and no index below depends on one of these, but for question 14's answer.
#![tactic(auto)]

ghost use Rattle.std.specs.Prelude.{◌≡◌, ◌*◌, ◌≤◌, ◌<◌, length};
ghost use Rattle.answers.specs.Answers.{answer_from};
ghost use Rattle.counts.specs.Counts.{W, E};
ghost use Rattle.network.specs.Log.{entry_words};
ghost use Rattle.setter.specs.Inner.{Sets};
ghost use Rattle.orders_listed.specs.Ranks.{factorial, order_at};
ghost use Rattle.listed_order.specs.Calls.{ranked, ranked_call};

use answers::{Reason, Refusal};

// 02, F-3: the call.
pub fn ranked_order(
    n: usize,
    r: usize,
    order: &mut [u16],
    bits: &mut [u8],
    log: &mut [u16],
) -> Result<usize, Refusal>
    ensures { ranked (answer_from result) order.new bits.new log.new
        ≡ ranked_call n r order.old bits.old log.old }
{
    if 6 < n {
        return Err(Refusal::of(Reason::SmallOrder));
    }
    let orders = usize::from(orders_listed::count_orders(n));
    if orders <= r {
        return Err(Refusal::of(Reason::Place));
    }
    if order.len() < n {
        return Err(Refusal::of(Reason::OutputRoom));
    }
    if bits.len() != counts::switches(n) {
        return Err(Refusal::of(Reason::BitCount));
    }
    if log.len() < entry_log::ENTRY_WORDS * counts::entries(n) {
        return Err(Refusal::of(Reason::LogRoom));
    }
    Ok(set_ranked(r as u16, &mut order[..n], bits, log))
}

// After the questions: the r-th order of as many places as `order` has, and its setting. The setter counts the entries. Question
// 6 is not asked: its answer is known, and asking would be a second decision on what is hidden.
fn set_ranked(r: u16, order: &mut [u16], bits: &mut [u8], log: &mut [u16]) -> usize
    requires { (length order.old ≤ 6) × (r < factorial (length order.old)) × (length bits.old ≡ W (length order.old))
        × (length bits.old ≤ 9217) × (entry_words * E (length order.old) ≤ length log.old) }
    ensures { (order.new ≡ order_at (length order.old) r)
        × Sets order.new log.old result bits.new log.new }
{
    orders_listed::write_order(r, order);
    setter::set_order(order, bits, log)
}
