// The network's switches on lent blocks, under control bits, with their log, by recursion on the halves: for mix. The bits and
// the bytes of the blocks are secret: no branch and no index depends on them.
#![tactic(auto)]

ghost use Rattle.std.specs.Prelude.{◌≡◌, ◌+◌};
ghost use Rattle.counts.specs.Counts.{W};
ghost use Rattle.wirings.specs.Nets.{net_of, Inside};
ghost use Rattle.apply_layers.specs.Ran.{blocks_in, Lent, Ran, switches_of};

use apply_layers::Forward;

// The network of m places that lie `apart` from each other, whatever its wiring, on the blocks from its first place o on, its entries
// from number e on: input switches, top, bottom, output switches. The blocks of a half may lie between those of the other, so the two
// parts that are lent may overlap. Returns the number of the entry after its last. Public for the crate `apply` only, whose calls have
// asked their questions before: so it `requires` what they have settled. Its numbers stay apart: as a `wirings::Net` they would go in
// memory.
pub fn run(
    blocks: &mut [u8],
    width: usize,
    t: wirings::Topology,
    m: usize,
    o: usize,
    apart: usize,
    bits: &[u8],
    log: &mut [u16],
    e: usize,
) -> usize
    requires { Lent width o (W m) e blocks.old bits.now log.old × Inside (o + blocks_in width blocks.old) (net_of t o m apart) }
    ensures { (result ≡ e + W m) × Ran width bits.now (switches_of (net_of t o m apart) e) o e
        blocks.old log.old blocks.new log.new }
{
    if m < 2 {
        return e;
    }
    let k = (m + 1) / 2; // the places of the top network
    let step = t.step(apart);
    let gap = t.gap(k, apart);
    if m == 2 {
        apply_pairs::pair::<Forward>(blocks, width, gap, o, bits, log, e);
        return e + 1;
    }
    let h = m - k;
    let inputs = k - 1;
    let end = (inputs * step + 1) * width; // behind the top's last block
    let cut = gap * width; // the bottom's first
    let at = o + gap;
    let next = e + inputs;
    apply_widths::layer::<Forward>(blocks, width, step, gap, inputs, o, bits, log, e);
    let top = run(&mut blocks[..end], width, t, k, o, step, bits, log, next);
    let bottom = run(&mut blocks[cut..], width, t, h, at, step, bits, log, top);
    apply_widths::layer::<Forward>(blocks, width, step, gap, h, o, bits, log, bottom);
    bottom + h
}
