// Which wiring a network has and where its places lie in the whole. Nothing here is hidden. Public for the crates of the calls, which
// have asked their questions before: so a function may `require` sizes. A wiring is a value and no trait with a type for each: theorems
// speak of every wiring at once, and the converter takes the one that it is told.
#![tactic(auto)]

ghost use Rattle.std.specs.Prelude.{◌≡◌, true, false, ◌≤◌, ◌<◌};
ghost use Rattle.wirings.specs.Nets.{whole_of, step_of, gap_of, Inside, Spaced, IsHalf};

// The wirings: the paper's (01), and the neighbour wiring (02, F-6).
#[derive(Clone, Copy, PartialEq, Eq, Debug)]
pub enum Topology {
    Paper,
    Neighbour,
}

// A network of `size` places that lie `apart` from each other, from the place `start` of the whole on. Where it must lie is in clauses and
// no ghost field: definitions make a network of any numbers.
#[derive(Clone, Copy)]
pub struct Net {
    pub topology: Topology,
    pub start: usize,
    pub size: usize,
    pub apart: usize,
}

// How far it is from a pair of a network to the next, and from a pair's one place to its other.
#[derive(Clone, Copy)]
pub struct Spacing {
    pub step: usize,
    pub gap: usize,
}

impl Topology {
    // How far it is from a pair to the next where the places lie `apart`. Here and in the next alone the wirings differ in where
    // things lie.
    #[tactic(auto, unfolding(crate::specs::Nets::step_of))]
    pub fn step(self, apart: usize) -> usize
        requires { step_of self apart < 18446744073709551616 }
        ensures { result ≡ step_of self apart }
    {
        match self {
            Topology::Paper => apart,
            Topology::Neighbour => 2 * apart,
        }
    }

    // How far it is from the one place of a pair to its other, where there are k pairs.
    #[tactic(auto, unfolding(crate::specs::Nets::gap_of))]
    pub fn gap(self, k: usize, apart: usize) -> usize
        requires { gap_of self k apart < 18446744073709551616 }
        ensures { result ≡ gap_of self k apart }
    {
        match self {
            Topology::Paper => k * apart,
            Topology::Neighbour => apart,
        }
    }
}

impl Net {
    // The whole of n places.
    pub fn whole(topology: Topology, n: usize) -> Net
        ensures { result ≡ whole_of topology n }
    {
        Net {
            topology,
            start: 0,
            size: n,
            apart: 1,
        }
    }

    // How far it is from its pairs to the next, and to their other places.
    pub fn spacing(self) -> Spacing
        requires { (2 ≤ self.size) × Inside 1024 self }
        ensures { Spaced self result.step result.gap }
    {
        let k = self.size.div_ceil(2);
        Spacing {
            step: self.topology.step(self.apart),
            gap: self.topology.gap(k, self.apart),
        }
    }

    // The top half: the places that feed the top when the switches are straight.
    pub fn top(self) -> Net
        requires { (2 ≤ self.size) × Inside 1024 self }
        ensures { IsHalf self false result }
    {
        Net {
            size: self.size.div_ceil(2),
            apart: self.spacing().step,
            ..self
        }
    }

    // The bottom half: the others.
    pub fn bottom(self) -> Net
        requires { (2 ≤ self.size) × Inside 1024 self }
        ensures { IsHalf self true result }
    {
        let s = self.spacing();
        Net {
            start: self.start + s.gap,
            size: self.size / 2,
            apart: s.step,
            ..self
        }
    }
}
