// A layer of switches, in a form that is made for the blocks' width. The bits and the bytes of the blocks are secret: no branch and no
// index depends on them.
#![tactic(auto)]

ghost use Rattle.apply_layers.specs.Ran.{blocks_in, Lent, Pairs, Ran};

use apply_layers::Direction;

// The layer. Pairs side by side are told apart from pairs at a distance only so that the loop is compiled anew for them. Public for the
// crates `apply_forward` and `apply_backward` only, whose callers have asked their questions before: so it `requires` what they have
// settled. Its numbers stay apart, as in `Direction::in_parts`.
pub fn layer<D: Direction>(
    blocks: &mut [u8],
    width: usize,
    step: usize,
    gap: usize,
    c: usize,
    o: usize,
    bits: &[u8],
    log: &mut [u16],
    e: usize,
)
    requires { Lent width o c e blocks.old bits.now log.old × Pairs (blocks_in width blocks.old) step gap c }
    ensures { Ran width bits.now (D.entries bits.now step gap e c) o e blocks.old log.old
        blocks.new log.new }
{
    if step == 1 {
        by_width::<D>(blocks, width, 1, gap, c, o, bits, log, e);
    } else {
        by_width::<D>(blocks, width, step, gap, c, o, bits, log, e);
    }
}

// The layer, the commonest widths told apart from each other, only so that the loop is compiled anew for each of them, and widths of
// whole parts so that it has no rest. Public for the crate `apply_pairs` too: where it is called a number may be a constant, so it has no
// code of its own.
#[inline(always)]
pub fn by_width<D: Direction>(
    blocks: &mut [u8],
    width: usize,
    step: usize,
    gap: usize,
    c: usize,
    o: usize,
    bits: &[u8],
    log: &mut [u16],
    e: usize,
)
    requires { Lent width o c e blocks.old bits.now log.old × Pairs (blocks_in width blocks.old) step gap c }
    ensures { Ran width bits.now (D.entries bits.now step gap e c) o e blocks.old log.old
        blocks.new log.new }
{
    match width {
        1 => D::in_parts(blocks, width, 0, 1, step, gap, c, o, bits, log, e),
        6 => D::in_parts(blocks, width, 0, 6, step, gap, c, o, bits, log, e),
        8 => D::in_parts(blocks, width, 0, 8, step, gap, c, o, bits, log, e),
        16 => D::in_parts(blocks, width, 0, 16, step, gap, c, o, bits, log, e),
        32 => D::in_parts(blocks, width, 32, 0, step, gap, c, o, bits, log, e),
        64 => D::in_parts(blocks, width, 64, 0, step, gap, c, o, bits, log, e),
        128 => D::in_parts(blocks, width, 128, 0, step, gap, c, o, bits, log, e),
        256 => D::in_parts(blocks, width, 256, 0, step, gap, c, o, bits, log, e),
        _ => {
            if width % 32 == 0 {
                D::in_parts(blocks, width, width, 0, step, gap, c, o, bits, log, e);
            } else {
                let rest = width % 32;
                let w = width / 32 * 32; // the whole parts
                D::in_parts(blocks, width, w, rest, step, gap, c, o, bits, log, e);
            }
        }
    }
}
