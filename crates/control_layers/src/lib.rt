// Steps 4 to 6 of the setter (01: steps of the setter), which take the tables through the layers of switches, into the halves
// (4, 5) and out of them (6): each a sweep of the network's places, and its entry in the log. Hidden: the tables, f, c, g, s and
// the bits. No branch and no index below depends on one of these. Public for the crate `control_network`; the call `set` has
// asked its questions before: so a step may `require` sizes.
#![tactic(auto)]

ghost use Rattle.std.specs.Prelude.{◌≡◌, List, [], ◌∷◌, ℕ, ◌+◌, ◌*◌, ◌-◌, ◌≤◌, ◌<◌, length};
ghost use Rattle.counts.specs.Counts.{up};
ghost use Rattle.network.specs.Log.{entry, entry_words};
ghost use Rattle.steps.specs.Sweeps.{each};
ghost use Rattle.steps.specs.State.{output_bit};
ghost use Rattle.steps.specs.Steps.{step4, step5, step6};
ghost use Rattle.wirings.specs.Nets.{wiring_of, place_of};
ghost use Rattle.control_sweeps.specs.Tables.{Below, Within, Covers};
ghost use Rattle.control_walk.specs.Walks.{state, subnetwork_of, Went};
ghost use Rattle.control_layers.specs.Switches.{Switched};

use control_walk::Walk;
use entry_log::Kind;
use wirings::Net;

// 4. The input switches act on the table and all marks are cleared: no table holds them from here on, and each network's rounds
// begin with a table of pairs of which none is marked.
pub fn step4(
    vals: &mut [u16],
    trails: &mut [u16],
    bits: &[u8],
    net: Net,
    log: &mut [u16],
    w: Walk,
) -> Walk
    requires { (2 ≤ net.size) × Covers net vals.old × Covers net trails.old
        × (w.b + (up net.size - 1) ≤ length bits.now) × (entry_words * (w.e + 1) ≤ length log.old) × Below 2 bits.now
        × (w.b < 65536) }
    ensures { Went (entry 4 net.start net.size w.b ∷ []) (up net.size - 1) w result log.old log.new
        × ((ms : List ℕ)
        → state vals.new trails.new (each (λ i. i) (up net.size) (λ i mark. 0) ms) bits.now result
        ≡ step4 (wiring_of net.topology) (subnetwork_of net w.b)
        (state vals.old trails.old ms bits.now w)) }
{
    let m = net.size;
    let k = (m + 1) / 2;
    control_sweeps::act_on(vals, trails, net, k - 1, bits, w.b);
    entry_log::write_entry(log, w.e, Kind::InputSwitches.number(), net.start, m, w.b);
    w.passed(k - 1)
}

// 5. Each value keeps its pair and its trail gains its side (in the paper's wiring: each of k or more loses k and gains 1). The walk has
// passed the network's first bit: `first` is its position, for the log.
pub fn step5(
    vals: &mut [u16],
    trails: &mut [u16],
    net: Net,
    first: usize,
    log: &mut [u16],
    w: Walk,
) -> Walk
    requires { (2 ≤ net.size) × Covers net vals.old × Covers net trails.old
        × (w.b < 18446744073709551616) × (entry_words * (w.e + 1) ≤ length log.old) × Within (place_of net) net.size 32768 vals.old
        × Within (place_of net) net.size 32768 trails.old × (first < 65536) }
    ensures { Went (entry 5 net.start net.size first ∷ []) 0 w result log.old log.new
        × ((ms bs : List ℕ) (bit : ℕ)
        → state vals.new trails.new ms bs result
        ≡ step5 (wiring_of net.topology) (subnetwork_of net bit) (state vals.old
        trails.old ms bs w)) }
{
    let m = net.size;
    let k = ((m + 1) / 2) as u16;
    control_sweeps::split_values(vals, trails, net, k);
    entry_log::write_entry(log, w.e, Kind::Split.number(), net.start, m, first);
    w.passed(0)
}

// Step 6, its first part: output bit i is the last trail bit at pair i's first place, and the switches act.
fn output_switches(vals: &mut [u16], trails: &mut [u16], bits: &mut [u8], b: usize, net: Net)
    requires { (2 ≤ net.size) × Covers net vals.old × Covers net trails.old
        × (b + (net.size - up net.size) ≤ length bits.old) × Below 2 bits.old }
    ensures { Switched net b vals.old trails.old bits.old vals.new
        trails.new bits.new }
{
    let m = net.size;
    let h = m - (m + 1) / 2;
    control_sweeps::last_bits(bits, b, h, trails, net);
    control_sweeps::act_on(vals, trails, net, h, bits, b);
}

// 6. For i = 0 to m-k-1, output bit i is the last trail bit at pair i's first place, and the switches act. Then every trail loses
// its last bit and the value is again what it was (in the paper's wiring: regains k where that bit was 1).
pub fn step6(
    vals: &mut [u16],
    trails: &mut [u16],
    bits: &mut [u8],
    net: Net,
    first: usize,
    log: &mut [u16],
    w: Walk,
) -> Walk
    requires { (2 ≤ net.size) × Covers net vals.old × Covers net trails.old
        × (w.b + (net.size - up net.size) ≤ length bits.old) × (entry_words * (w.e + 1) ≤ length log.old) × Below 2 bits.old
        × Within (place_of net) net.size 32768 vals.old × (first < 65536) }
    ensures { Went (entry 6 net.start net.size first ∷ []) (net.size - up net.size) w result
        log.old log.new × ((ms : List ℕ) (bit : ℕ)
        → w.b ≡ output_bit (subnetwork_of net bit) → state vals.new trails.new ms bits.new result
        ≡ step6 (wiring_of net.topology) (subnetwork_of net bit)
        (state vals.old trails.old ms bits.old w)) }
{
    let m = net.size;
    let k = (m + 1) / 2;
    output_switches(vals, trails, bits, w.b, net);
    control_sweeps::join_values(vals, trails, net, k as u16);
    entry_log::write_entry(log, w.e, Kind::OutputSwitches.number(), net.start, m, first);
    w.passed(m - k)
}
