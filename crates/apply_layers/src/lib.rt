// A layer of switches on lent blocks, first to last and last to first, each switch with its log entry. The bits and the bytes of
// the blocks are secret: no branch and no index depends on them. Public for the crates `apply_widths` and `apply_pairs` only, whose
// callers have asked their questions before: so a layer `requires` what they have settled.
#![tactic(auto)]

ghost use Rattle.std.specs.Prelude.{◌≡◌, ℕ, List, reverse, ◌+◌, ◌%◌};
ghost use Rattle.network.specs.Log.{Entry};
ghost use Rattle.apply_layers.specs.Ran.{blocks_in, Lent, Pairs, Ran, back_from, layer_of};

use entry_log::Kind;

// Which way a layer's switches are run: by a type, so that the loop is compiled anew for each. The loops differ in where they begin and
// which way they count; as one loop over the direction the return took 6 to 8 % more instructions in small networks.
pub trait Direction {
    // what is run of a layer: of the bits, its step and gap, the number of its first entry, and how many switches it has
    ghost entries: { List ℕ → ℕ → ℕ → ℕ → ℕ → List Entry };

    // The first c switches of a layer on the blocks from place o on: switch i on the block i steps from the first and on the one a gap
    // further, its entries from number e on. Of each block `whole` bytes go in parts of 32, and the `rest` behind them. Step, gap, c, o
    // and e stay numbers of their own: in one struct, small networks take up to 7 % more instructions.
    fn in_parts(
        blocks: &mut [u8],
        width: usize,
        whole: usize,
        rest: usize,
        step: usize,
        gap: usize,
        c: usize,
        o: usize,
        bits: &[u8],
        log: &mut [u16],
        e: usize,
    )
        requires { Lent width o c e blocks.old bits.now log.old × Pairs (blocks_in width blocks.old) step gap c
            × (width ≡ whole + rest) × (whole % 32 ≡ 0) }
        ensures { Ran width bits.now (entries bits.now step gap e c) o e blocks.old log.old
            blocks.new log.new };
}

// First to last: switch i under bit e + i, logged as entry e + i.
pub struct Forward {}

impl Direction for Forward {
    ghost entries = { λ bits step gap e c. layer_of step gap e c };

    #[inline(always)]
    fn in_parts(
        blocks: &mut [u8],
        width: usize,
        whole: usize,
        rest: usize,
        step: usize,
        gap: usize,
        c: usize,
        o: usize,
        bits: &[u8],
        log: &mut [u16],
        e: usize,
    ) {
        let stride = step * width;
        let across = gap * width;
        let next = entry_log::packed_apart(step, step, 1); // how far apart two switches' entries are
        let kind = usize::from(Kind::Exchange.number());
        let mut x = entry_log::packed(kind, o, o + gap, e);
        for i in 0..c {
            let s = bits[e..][i]; // so, and not bits[e + i], it takes a register less
            let a = i * stride; // the first byte of the lower block
            exchange_blocks::exchange_whole(blocks, whole, a, across, s);
            exchange_blocks::exchange_rest(blocks, rest, a + whole, across, s);
            entry_log::write_packed(log, e + i, x);
            x += next;
        }
    }
}

// Last to first, as the return runs them: entry e has the bit that is as far from the last as e is from 0.
pub struct Backward {}

impl Direction for Backward {
    ghost entries = { λ bits step gap e c. reverse (layer_of step gap (back_from bits e c) c) };

    #[inline(always)]
    fn in_parts(
        blocks: &mut [u8],
        width: usize,
        whole: usize,
        rest: usize,
        step: usize,
        gap: usize,
        c: usize,
        o: usize,
        bits: &[u8],
        log: &mut [u16],
        e: usize,
    ) {
        let stride = step * width;
        let across = gap * width;
        let first = bits.len() - (e + c);
        let past = c * step; // a step past the last switch's lower place
        let next = entry_log::packed_apart(step, step, 1);
        let kind = usize::from(Kind::Exchange.number());
        let mut x = entry_log::packed(kind, o + past, o + (past + gap), first + c);
        let mut to = e;
        for i in (0..c).rev() {
            x -= next;
            let s = bits[first + i];
            let a = i * stride;
            exchange_blocks::exchange_whole(blocks, whole, a, across, s);
            exchange_blocks::exchange_rest(blocks, rest, a + whole, across, s);
            entry_log::write_packed(log, to, x);
            to += 1;
        }
    }
}
