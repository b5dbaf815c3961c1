// The converter (02, F-6): a setting of either wiring becomes the other wiring's canonical setting of the same order. It keeps no log.
// The bits are secret: one decision is taken from them, that of question 7; every other branch and index follows from the wiring, n
// and the lengths.
#![tactic(auto)]

ghost use Rattle.std.specs.Prelude.{◌≡◌};
ghost use Rattle.answers.specs.Answers.{answer_from};
ghost use Rattle.answers.specs.Outcomes.{outcome};
ghost use Rattle.convert.specs.Calls.{across, convert_call};

use answers::{Reason, Refusal};
use wirings::Topology;

// The other wiring. No method of `Topology`: only the converter asks for it.
fn other_wiring(t: Topology) -> Topology
    ensures { result ≡ across t }
{
    match t {
        Topology::Paper => Topology::Neighbour,
        Topology::Neighbour => Topology::Paper,
    }
}

// Questions 1, 4 of the given setting, 4 of the one to be written, 7; then the order that the setting carries in its own wiring, and
// that order's setting in the other, over all of `out`.
pub fn convert(from: Topology, n: usize, given: &[u8], out: &mut [u8]) -> Result<usize, Refusal>
    ensures { outcome (answer_from result) out.new ≡ convert_call from n given.now out.old }
{
    if counts::MOST_PLACES < n {
        return Err(Refusal::of(Reason::Places));
    }
    let due = counts::switches(n);
    if given.len() != due {
        return Err(Refusal::of(Reason::BitCount));
    }
    if out.len() != due {
        return Err(Refusal::of(Reason::BitCount));
    }
    let bad = bits::first_bad_bit(given);
    if bad != due {
        return Err(Refusal::at(Reason::BitByte, bad));
    }
    let mut order = [0u16; 1024];
    setting_order::order_of_setting_in(from, n, given, &mut order);
    setting_order::setting_of_order_in(other_wiring(from), &order[..n], out);
    Ok(0)
}
