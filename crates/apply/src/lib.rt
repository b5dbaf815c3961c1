// The calls `apply` (01: mix) and `apply_inverse` (01: return), and the same in each wiring: their questions, then the network's
// switches on lent blocks, under control bits, with their log. The bits and the bytes of the blocks are secret. The wiring, n, the
// width and the lengths are not: they alone decide every branch and index, but for the one decision of question 7.
#![tactic(auto)]

ghost use Rattle.std.specs.Prelude.{◌≡◌};
ghost use Rattle.answers.specs.Answers.{answer_from};
ghost use Rattle.answers.specs.Outcomes.{logged};
ghost use Rattle.wirings.specs.Nets.{wiring_of};
ghost use Rattle.apply.specs.Calls.{apply_call, inverse_call, apply_call_in, inverse_call_in};

use answers::Refusal;
use wirings::Topology;

// 01: mix. Mix and return, each in the paper's wiring and in any, are calls of their own: 01, 02 and the calls for C name them.
pub fn apply(
    n: usize,
    width: usize,
    blocks: &mut [u8],
    bits: &[u8],
    log: &mut [u16],
) -> Result<usize, Refusal>
    ensures { logged (answer_from result) blocks.new log.new
        ≡ apply_call n width blocks.old bits.now log.old }
{
    apply_in(Topology::Paper, n, width, blocks, bits, log)
}

// Mix in the wiring t (02, F-6).
pub fn apply_in(
    t: Topology,
    n: usize,
    width: usize,
    blocks: &mut [u8],
    bits: &[u8],
    log: &mut [u16],
) -> Result<usize, Refusal>
    ensures { logged (answer_from result) blocks.new log.new
        ≡ apply_call_in (wiring_of t) n width blocks.old bits.now log.old }
{
    apply_questions::ask(n, width, blocks.len(), bits, log.len())?; // a refused call writes nothing
    Ok(apply_forward::run(blocks, width, t, n, 0, 1, bits, log, 0))
}

// 01: return.
pub fn apply_inverse(
    n: usize,
    width: usize,
    blocks: &mut [u8],
    bits: &[u8],
    log: &mut [u16],
) -> Result<usize, Refusal>
    ensures { logged (answer_from result) blocks.new log.new
        ≡ inverse_call n width blocks.old bits.now log.old }
{
    apply_inverse_in(Topology::Paper, n, width, blocks, bits, log)
}

// Return in the wiring t (02, F-6).
pub fn apply_inverse_in(
    t: Topology,
    n: usize,
    width: usize,
    blocks: &mut [u8],
    bits: &[u8],
    log: &mut [u16],
) -> Result<usize, Refusal>
    ensures { logged (answer_from result) blocks.new log.new
        ≡ inverse_call_in (wiring_of t) n width blocks.old bits.now log.old }
{
    apply_questions::ask(n, width, blocks.len(), bits, log.len())?;
    Ok(apply_backward::run_back(blocks, width, t, n, 0, 1, bits, log, 0))
}
