// The setter's steps on hidden tables in their sequence, by recursion on the halves. Hidden: the tables, f, c, g, s, any and the
// bits. No branch and no index below depends on one of these. `rings` is lent for a network's rounds alone: what it holds before
// and after does not matter, and its type says how many pairs there are. `vals` and `trails` are no struct: one of lent slices would
// need a clause for the length of each in every contract, one of arrays would have places past those of the whole. Public for the crate
// `setter`, whose callers have asked the questions of `set`: so `set_network` may `require` sizes, and that its places hold an order.
#![tactic(auto)]

ghost use Rattle.std.specs.Prelude.{◌≡◌, List, [], ◌∷◌, ◌++◌, ℕ, ◌+◌, ◌*◌, ◌-◌, ◌≤◌, ◌<◌, length, replicate};
ghost use Rattle.counts.specs.Counts.{up, W};
ghost use Rattle.network.specs.Network.{network};
ghost use Rattle.network.specs.Log.{entry, entry_words};
ghost use Rattle.steps.specs.Steps.{step5};
ghost use Rattle.steps.specs.Sequence.{rounds, input_entries, entries_of};
ghost use Rattle.steps.specs.Fold.{rounds_of, input_steps, set_net};
ghost use Rattle.steps_canonical.specs.Table.{Ordered};
ghost use Rattle.wirings.specs.Nets.{wiring_of, place_of};
ghost use Rattle.control_sweeps.specs.Tables.{Within, Covers};
ghost use Rattle.control_rows.specs.Rows.{Gathered, Padded};
ghost use Rattle.control_pairs.specs.Pairs.{marks_in, bits_in};
ghost use Rattle.control_walk.specs.Walks.{state, lying, subnetwork_of, Went};
ghost use Rattle.control_rings.specs.Turns.{Small, Held};
ghost use Rattle.control_network.specs.Inner.{Room, Tidy, Lengthens, unmarked};

use control_rings::Rings;
use control_walk::Walk;
use wirings::Net;

// Steps 1, 2, 3.
fn round(rings: &mut Rings, net: Net, log: &mut [u16], w: Walk) -> Walk
    requires { (2 ≤ net.size) × (net.size ≤ 1024) × (net.start ≤ 1024)
        × (entry_words * (w.e + 3) ≤ length log.old)
        × Small net.size rings.old.row.now × Padded net.size rings.old.row.now × Held (up net.size) rings.old.pairs.now w
        × (w.b < 65536) }
    ensures { Went (entry 1 net.start net.size w.b ∷ entry 2 net.start net.size w.b
        ∷ entry 3 net.start net.size w.b ∷ []) 0 w result log.old log.new
        × Held (up net.size) rings.new.pairs.now result × (rings.new.row.now ≡ rings.old.row.now)
        × ((place : ℕ → ℕ) (vs ts ms bs : List ℕ) (bit : ℕ)
        → Gathered place net.size vs rings.old.row.now → up net.size ≤ length ms
        → state vs ts (marks_in (up net.size) rings.new.pairs.now ms) (bits_in bit (up net.size - 1) rings.new.pairs.now bs) result
        ≡ rounds_of (wiring_of net.topology) (lying place net.size bit) 1
        (state vs ts (marks_in (up net.size) rings.old.pairs.now ms)
        (bits_in bit (up net.size - 1) rings.old.pairs.now bs) w)) }
{
    let x = control_rings::step1(rings.row, net, log, w);
    let y = control_rings::step2(rings.row, net, log, x);
    control_rings::step3(rings.pairs, net, log, y)
}

// The k rounds of a network.
fn rounds(rings: &mut Rings, net: Net, log: &mut [u16], w: Walk) -> Walk
    requires { (2 ≤ net.size) × (net.size ≤ 1024) × (net.start ≤ 1024)
        × (entry_words * (w.e + 3 * up net.size) ≤ length log.old)
        × Small net.size rings.old.row.now × Padded net.size rings.old.row.now × Held (up net.size) rings.old.pairs.now w
        × (w.b < 65536) }
    ensures { Went (rounds (up net.size) net.start net.size w.b) 0 w result log.old log.new
        × Held (up net.size) rings.new.pairs.now result × (rings.new.row.now ≡ rings.old.row.now)
        × ((place : ℕ → ℕ) (vs ts ms bs : List ℕ) (bit : ℕ)
        → Gathered place net.size vs rings.old.row.now → up net.size ≤ length ms
        → state vs ts (marks_in (up net.size) rings.new.pairs.now ms) (bits_in bit (up net.size - 1) rings.new.pairs.now bs) result
        ≡ rounds_of (wiring_of net.topology) (lying place net.size bit) (up net.size)
        (state vs ts (marks_in (up net.size) rings.old.pairs.now ms)
        (bits_in bit (up net.size - 1) rings.old.pairs.now bs) w)) }
{
    let k = (net.size + 1) / 2;
    let mut x = w;
    for _round in 0..k {
        x = round(rings, net, log, x);
    }
    x
}

// The rounds on the network's values, gathered once, and on pairs of which none is marked; and the bits that they settle.
fn settle_inputs(
    vals: &[u16],
    rings: &mut Rings,
    bits: &mut [u8],
    net: Net,
    log: &mut [u16],
    w: Walk,
) -> Walk
    requires { (2 ≤ net.size) × Covers net vals.now
        × (w.b + (up net.size - 1) ≤ length bits.old) × (entry_words * (w.e + 3 * up net.size) ≤ length log.old)
        × Within (place_of net) net.size 32768 vals.now × (w.f < 32768) × (w.c < 32768) × (w.b < 65536) }
    ensures { Went (rounds (up net.size) net.start net.size w.b) 0 w result log.old log.new
        × ((ts : List ℕ) (j : ℕ) → up net.size ≤ j
        → state vals.now ts (marks_in (up net.size) rings.new.pairs.now (replicate j 0)) bits.new result
        ≡ rounds_of (wiring_of net.topology) (subnetwork_of net w.b) (up net.size)
        (unmarked j vals.now ts bits.old w)) }
{
    let k = (net.size + 1) / 2;
    let b = w.b;
    control_rows::gather(rings.row, vals, net.start, net.apart, net.size);
    control_pairs::unmark(rings.pairs, k);
    let x = rounds(rings, net, log, w.unmarked());
    let pairs = &mut *rings.pairs; // lent anew: so it is known that they stay
    control_pairs::give_bits(bits, b, k - 1, pairs);
    x
}

// What comes before step 5: nothing for two places; above, the rounds and step 4.
fn input_steps(
    vals: &mut [u16],
    trails: &mut [u16],
    rings: &mut Rings,
    bits: &mut [u8],
    net: Net,
    log: &mut [u16],
    w: Walk,
) -> Walk
    requires { (2 ≤ net.size) × Room net w vals.old trails.old bits.old log.old
        × Tidy (unmarked 512 vals.old trails.old bits.old w)
        × Ordered (subnetwork_of net w.b) (unmarked 512 vals.old trails.old bits.old w) }
    ensures { Went (input_entries net.start net.size w.b) (up net.size - 1) w result log.old log.new
        × ((j : ℕ) → up net.size ≤ j
        → unmarked j vals.new trails.new bits.new result
        ≡ input_steps (wiring_of net.topology) (subnetwork_of net w.b)
        (unmarked j vals.old trails.old bits.old w)) }
{
    if net.size < 3 {
        return w;
    }
    let x = settle_inputs(vals, rings, bits, net, log, w);
    control_layers::step4(vals, trails, bits, net, log, x)
}

// All that comes before the halves.
fn enter(
    vals: &mut [u16],
    trails: &mut [u16],
    rings: &mut Rings,
    bits: &mut [u8],
    net: Net,
    log: &mut [u16],
    w: Walk,
) -> Walk
    requires { (2 ≤ net.size) × Room net w vals.old trails.old bits.old log.old
        × Tidy (unmarked 512 vals.old trails.old bits.old w)
        × Ordered (subnetwork_of net w.b) (unmarked 512 vals.old trails.old bits.old w)
        × Lengthens (place_of net) net.size trails.old }
    ensures { Went (input_entries net.start net.size w.b
        ++ (entry 5 net.start net.size w.b ∷ [])) (up net.size - 1) w result log.old log.new
        × ((j : ℕ) → up net.size ≤ j → unmarked j vals.new trails.new bits.new result
        ≡ step5 (wiring_of net.topology) (subnetwork_of net w.b)
        (input_steps (wiring_of net.topology) (subnetwork_of net w.b) (unmarked j vals.old
        trails.old bits.old w))) }
{
    let first = w.b; // of the network's bits
    let x = input_steps(vals, trails, rings, bits, net, log, w);
    control_layers::step5(vals, trails, net, first, log, x)
}

// The network at its places, whose bits begin at w.b. No pair is marked before it, nor after it.
pub fn set_network(
    vals: &mut [u16],
    trails: &mut [u16],
    rings: &mut Rings,
    bits: &mut [u8],
    net: Net,
    log: &mut [u16],
    w: Walk,
) -> Walk
    requires { Room net w vals.old trails.old bits.old log.old
        × Tidy (unmarked 512 vals.old trails.old bits.old w)
        × Ordered (subnetwork_of net w.b) (unmarked 512 vals.old trails.old bits.old w)
        × Lengthens (place_of net) net.size trails.old }
    ensures { Went (entries_of (wiring_of net.topology) (network net.size) (place_of net) w.b) (W net.size) w result
        log.old log.new
        × ((j : ℕ) → up net.size ≤ j → unmarked j vals.new trails.new bits.new result
        ≡ set_net (wiring_of net.topology) (network net.size) (place_of net) w.b (unmarked j vals.old trails.old
        bits.old w)) }
{
    if net.size < 2 {
        return w;
    }
    let first = w.b; // of the network's bits
    let x = enter(vals, trails, rings, bits, net, log, w);
    let y = set_network(vals, trails, rings, bits, net.top(), log, x);
    let z = set_network(vals, trails, rings, bits, net.bottom(), log, y);
    control_layers::step6(vals, trails, bits, net, first, log, z)
}
