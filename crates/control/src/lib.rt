// The call set (01), and the same in each wiring (02, F-6): questions 1, 4, 5, 6; then the setter.
// The wiring is public. Hidden: the order's entries and the bits. No branch and no index below depends on one of these, but for
// question 6's answer.
#![tactic(auto)]

ghost use Rattle.std.specs.Prelude.{◌≡◌};
ghost use Rattle.answers.specs.Answers.{answer_from};
ghost use Rattle.answers.specs.Outcomes.{logged};
ghost use Rattle.wirings.specs.Nets.{wiring_of};
ghost use Rattle.control.specs.Calls.{set_call, set_call_in};

use answers::{Reason, Refusal};
use wirings::Topology;

// 01: set.
pub fn control_bits(order: &[u16], bits: &mut [u8], log: &mut [u16]) -> Result<usize, Refusal>
    ensures { logged (answer_from result) bits.new log.new ≡ set_call order.now bits.old log.old }
{
    control_bits_in(Topology::Paper, order, bits, log)
}

// Set in the wiring t.
pub fn control_bits_in(
    t: Topology,
    order: &[u16],
    bits: &mut [u8],
    log: &mut [u16],
) -> Result<usize, Refusal>
    ensures { logged (answer_from result) bits.new log.new
        ≡ set_call_in (wiring_of t) order.now bits.old log.old }
{
    let n = order.len();
    if counts::MOST_PLACES < n {
        return Err(Refusal::of(Reason::Places));
    }
    if bits.len() != counts::switches(n) {
        return Err(Refusal::of(Reason::BitCount));
    }
    if log.len() < entry_log::ENTRY_WORDS * counts::entries(n) {
        return Err(Refusal::of(Reason::LogRoom));
    }
    let bad = permutation::first_bad_entry(order);
    if bad != n {
        return Err(Refusal::at(Reason::Entry, bad));
    }
    Ok(setter::set_order_in(t, order, bits, log))
}
