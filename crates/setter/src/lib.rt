// The setter after its questions: a whole network on hidden tables of its own.
// The wiring is public. Hidden: the order's entries, the tables, f, c, g, s, any and the bits. No branch and no index below depends on
// one of these.
#![tactic(auto)]

ghost use Rattle.std.specs.Prelude.{◌≡◌, ◌*◌, ◌≤◌, length, replicate};
ghost use Rattle.counts.specs.Counts.{W, E};
ghost use Rattle.network.specs.Log.{entry_words};
ghost use Rattle.permutation.specs.Permutations.{IsPermutation};
ghost use Rattle.wirings.specs.Nets.{wiring_of};
ghost use Rattle.setter.specs.Inner.{Sets, SetsIn};

use control_rings::Rings;
use control_walk::Walk;
use wirings::{Net, Topology};

// The setter on a table of the order's length. Order, bits and log are lent apart: a struct of lent slices would need a clause for each
// wherever it goes.
fn set_table(
    t: Topology,
    order: &[u16],
    vals: &mut [u16],
    trails: &mut [u16],
    rings: &mut Rings,
    bits: &mut [u8],
    log: &mut [u16],
) -> usize
    requires { (length order.now ≤ 1024) × IsPermutation (length order.now) order.now × (length vals.old ≡ length order.now)
        × (trails.old ≡ replicate (length order.now) 0)
        × (length bits.old ≡ W (length order.now)) × (length bits.old ≤ 9217)
        × (entry_words * E (length order.now) ≤ length log.old) }
    ensures { SetsIn (wiring_of t) order.now log.old result bits.new log.new }
{
    vals.copy_from_slice(order);
    bits.fill(0);
    let whole = Net::whole(t, order.len());
    let w = control_network::set_network(vals, trails, rings, bits, whole, log, Walk::default());
    w.e
}

// The setter after its questions, in the paper's wiring: sets an order, logs, and counts the entries. Public for the crates that set
// orders of which the questions are known to get a yes.
pub fn set_order(order: &[u16], bits: &mut [u8], log: &mut [u16]) -> usize
    requires { (length order.now ≤ 1024) × IsPermutation (length order.now) order.now × (length bits.old ≡ W (length order.now))
        × (length bits.old ≤ 9217) × (entry_words * E (length order.now) ≤ length log.old) }
    ensures { Sets order.now log.old result bits.new log.new }
{
    set_order_in(Topology::Paper, order, bits, log)
}

// The same in the wiring t.
pub fn set_order_in(t: Topology, order: &[u16], bits: &mut [u8], log: &mut [u16]) -> usize
    requires { (length order.now ≤ 1024) × IsPermutation (length order.now) order.now × (length bits.old ≡ W (length order.now))
        × (length bits.old ≤ 9217) × (entry_words * E (length order.now) ≤ length log.old) }
    ensures { SetsIn (wiring_of t) order.now log.old result bits.new log.new }
{
    let n = order.len();
    let mut vals = [0u16; 1024];
    let mut trails = [0u16; 1024];
    let mut row = [65535u16; 1024]; // no value
    let mut pairs = [0u16; 512];
    let mut rings = Rings {
        row: &mut row,
        pairs: &mut pairs,
    };
    set_table(
        t,
        order,
        &mut vals[..n],
        &mut trails[..n],
        &mut rings,
        bits,
        log,
    )
}
