// The sides of a network's pairs, as oblivious functions on numbers: here alone the wirings differ in what a step makes of a place or
// a value. The wiring and the number k of pairs are public; all other numbers are hidden: no branch depends on one. Public for the
// crates of the steps; the call `set` has asked its questions before: so a function may `require` sizes (as clauses: crate select).
#![tactic(auto)]

ghost use Rattle.std.specs.Prelude.{◌≡◌, false, ◌≤◌, ◌<◌, eqb};
ghost use Rattle.steps.specs.Steps.{other, digit};
ghost use Rattle.wirings.specs.Nets.{wiring_of};

use wirings::Topology;

// The pair of the place p of k pairs; of a value, what it keeps in its half.
pub fn pair_of(t: Topology, k: u16, p: u16) -> u16
    requires { (k ≤ 1024) × (p < 32768) }
    ensures { result ≡ ((wiring_of t).dec k p).0 }
{
    match t {
        Topology::Paper => p - k * select::at_least(p, k),
        Topology::Neighbour => p / 2,
    }
}

// 1 where the place p is its pair's other side, else 0; of a value, what its trail gains.
pub fn side_of(t: Topology, k: u16, p: u16) -> u16
    requires { (k ≤ 1024) × (p < 32768) }
    ensures { result ≡ digit ((wiring_of t).dec k p).1 }
{
    match t {
        Topology::Paper => select::at_least(p, k),
        Topology::Neighbour => p % 2,
    }
}

// The other place of p's pair; the associate of the value p.
pub fn other_of(t: Topology, k: u16, p: u16) -> u16
    requires { (k ≤ 1024) × (p < 32768) }
    ensures { result ≡ other (wiring_of t) k p }
{
    match t {
        Topology::Paper => p + k - 2 * k * select::at_least(p, k),
        Topology::Neighbour => p + 1 - 2 * (p % 2),
    }
}

// The place of pair i that feeds the top when its switch is straight.
pub fn first_of(t: Topology, k: u16, i: u16) -> u16
    requires { (k ≤ 1024) × (i ≤ 1024) }
    ensures { result ≡ (wiring_of t).enc k (i, false) }
{
    match t {
        Topology::Paper => i,
        Topology::Neighbour => 2 * i,
    }
}

// The value that was v in its half, by the last bit s of its trail.
pub fn value_of(t: Topology, k: u16, v: u16, s: u16) -> u16
    requires { (k ≤ 1024) × (v < 32768) × (s < 2) }
    ensures { result ≡ (wiring_of t).enc k (v, eqb s 1) }
{
    match t {
        Topology::Paper => v + (k & select::mask(s)),
        Topology::Neighbour => 2 * v + s,
    }
}
