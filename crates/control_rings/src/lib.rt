// Steps 1 to 3 of the setter (01: steps of the setter), which walk along the rings: each a sweep of the network's m values, which
// are gathered in a row, or of its pairs, and its entry in the log. Hidden: the row, the pairs, f, c, g, s, any and the bits. No
// branch and no index below depends on one of these. The rest of the state, which a step does not touch, is free in its promise, and
// so is where the network's places lie. Public for the crate `control_network`; the call `set` has asked its questions before: so a
// step may `require` sizes.
#![tactic(auto)]

ghost use Rattle.std.specs.Prelude.{◌≡◌, not, List, [], ◌∷◌, ℕ, ◌+◌, ◌-◌, ◌*◌, ◌≤◌, ◌<◌, length};
ghost use Rattle.counts.specs.Counts.{up};
ghost use Rattle.network.specs.Log.{entry, entry_words};
ghost use Rattle.steps.specs.Sweeps.{none_marked};
ghost use Rattle.steps.specs.Steps.{digit, step1, step2, step3};
ghost use Rattle.wirings.specs.Nets.{wiring_of};
ghost use Rattle.control_rows.specs.Rows.{Gathered, Padded};
ghost use Rattle.control_pairs.specs.Pairs.{marks_in, bits_in};
ghost use Rattle.control_walk.specs.Walks.{state, lying, Went};
ghost use Rattle.control_rings.specs.Turns.{turned, Small, Held};

use control_walk::Walk;
use entry_log::Kind;
use wirings::{Net, Topology};

// What the rounds of a network are done on: its values side by side, and its pairs. Both are lent, for the most places (no heap): a
// network's own are the first m and the first k.
#[derive(Drop)]
pub struct Rings<'a> {
    pub row: &'a mut [u16; 1024],
    pub pairs: &'a mut [u16],
    pub ghost pairs_room: { 512 ≤ length pairs.now },
}

// 1. If no pair is marked, f = c = the last pair's first place (in the paper's wiring k-1). Then g is the value at f.
pub fn step1(row: &[u16; 1024], net: Net, log: &mut [u16], w: Walk) -> Walk
    requires { (2 ≤ net.size) × (net.size ≤ 1024) × (net.start ≤ 1024) × (entry_words * (w.e + 1) ≤ length log.old)
        × Small net.size row.now × (w.f < 32768) × (w.c < 32768) × (w.any < 2) × (w.b < 65536) }
    ensures { Went (entry 1 net.start net.size w.b ∷ []) 0 w result log.old log.new × (result.any ≡ w.any)
        × ((result.f < 32768) × (result.c < 32768) × (result.g < 32768)) × ((place : ℕ → ℕ) (vs ts ms bs : List ℕ) (bit : ℕ)
        → Gathered place net.size vs row.now → w.any ≡ digit (not (none_marked ms (up net.size)))
        → state vs ts ms bs result ≡ step1 (wiring_of net.topology) (lying place net.size bit) (state vs ts ms bs w)) }
{
    let t = net.topology;
    let m = net.size;
    let k = ((m + 1) / 2) as u16;
    let last = control_sides::first_of(t, k, k - 1);
    let f = select::pick(w.any, w.f, last);
    let c = select::pick(w.any, w.c, last);
    let g = control_rows::look_in(row, m, f);
    entry_log::write_entry(log, w.e, Kind::Value.number(), net.start, m, w.b);
    Walk {
        f,
        c,
        g,
        e: w.e + 1,
        ..w
    }
}

// 2. s is the place that holds g's associate.
pub fn step2(row: &[u16; 1024], net: Net, log: &mut [u16], w: Walk) -> Walk
    requires { (2 ≤ net.size) × (net.size ≤ 1024) × (net.start ≤ 1024) × (entry_words * (w.e + 1) ≤ length log.old)
        × Padded net.size row.now × (w.g < 32768) × (w.b < 65536) }
    ensures { Went (entry 2 net.start net.size w.b ∷ []) 0 w result log.old log.new × (result.any ≡ w.any)
        × ((result.f ≡ w.f) × (result.c ≡ w.c) × (result.s < 32768)) × ((place : ℕ → ℕ) (vs ts ms bs : List ℕ) (bit : ℕ)
        → Gathered place net.size vs row.now → state vs ts ms bs result
        ≡ step2 (wiring_of net.topology) (lying place net.size bit) (state vs ts ms bs w)) }
{
    let t = net.topology;
    let m = net.size;
    let k = ((m + 1) / 2) as u16;
    let s = control_rows::seek_in(row, m, control_sides::other_of(t, k, w.g));
    entry_log::write_entry(log, w.e, Kind::Associate.number(), net.start, m, w.b);
    Walk { s, e: w.e + 1, ..w }
}

// 3. If s's pair has an input switch, its bit is 1 where s is the pair's first place (in the paper's wiring: below k), else 0. The
// pair is marked and f is the other place of it. If f = c and a pair is unmarked, f = c = the first place of the lowest unmarked
// pair. A pair is marked then if one was, or if s's pair is one of the network's.
pub fn step3(pairs: &mut [u16], net: Net, log: &mut [u16], w: Walk) -> Walk
    requires { (2 ≤ net.size) × (net.size ≤ 1024) × (net.start ≤ 1024) × (512 ≤ length pairs.old)
        × (entry_words * (w.e + 1) ≤ length log.old)
        × Held (up net.size) pairs.old w × (w.s < 32768) × (w.b < 65536) }
    ensures { Went (entry 3 net.start net.size w.b ∷ []) 0 w result log.old log.new
        × Held (up net.size) pairs.new result
        × ((place : ℕ → ℕ) (vs ts ms bs : List ℕ) (bit : ℕ) → up net.size ≤ length ms
        → state vs ts (marks_in (up net.size) pairs.new ms) (bits_in bit (up net.size - 1) pairs.new bs) result
        ≡ step3 (wiring_of net.topology) (lying place net.size bit) (state vs ts (marks_in (up net.size) pairs.old ms)
        (bits_in bit (up net.size - 1) pairs.old bs) w)) }
{
    let t = net.topology;
    let m = net.size;
    let k = (m + 1) / 2;
    let few = k as u16;
    let pair = control_sides::pair_of(t, few, w.s);
    let bit = 1 - control_sides::side_of(t, few, w.s);
    let low = control_pairs::settle(pairs, k, pair, bit);
    let any = w.any | select::below(pair, few);
    entry_log::write_entry(log, w.e, Kind::Settle.number(), net.start, m, w.b);
    turn(t, few, low, any, w)
}

// f and c after a round that marked s's pair; low is the lowest unmarked pair, or k.
fn turn(t: Topology, k: u16, low: u16, any: u16, w: Walk) -> Walk
    requires { (k ≤ 1024) × (low ≤ 1024) × (w.s < 32768) × (w.c < 32768) × (w.e + 1 < 18446744073709551616) }
    ensures { result ≡ turned (wiring_of t) k low any w }
{
    let f = control_sides::other_of(t, k, w.s);
    let again = select::equal(f, w.c) * select::below(low, k);
    let next = control_sides::first_of(t, k, low);
    Walk {
        f: select::pick(again, next, f),
        c: select::pick(again, next, w.c),
        any,
        e: w.e + 1,
        ..w
    }
}
