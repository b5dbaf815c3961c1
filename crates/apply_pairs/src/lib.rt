// A layer of one switch, as a network of two places has it, in a form that is made for the blocks' width and without a loop: half of
// all networks are such. The bits and the bytes of the blocks are secret: no branch and no index depends on them.
#![tactic(auto)]

ghost use Rattle.apply_layers.specs.Ran.{blocks_in, Lent, Pairs, Ran};

use apply_layers::Direction;

// Public for the crates `apply_forward` and `apply_backward` only, whose callers have asked their questions before: so it `requires` what
// they have settled.
pub fn pair<D: Direction>(
    blocks: &mut [u8],
    width: usize,
    gap: usize,
    o: usize,
    bits: &[u8],
    log: &mut [u16],
    e: usize,
)
    requires { Lent width o 1 e blocks.old bits.now log.old × Pairs (blocks_in width blocks.old) 1 gap 1 }
    ensures { Ran width bits.now (D.entries bits.now 1 gap e 1) o e blocks.old log.old
        blocks.new log.new }
{
    apply_widths::by_width::<D>(blocks, width, 1, gap, 1, o, bits, log, e);
}
