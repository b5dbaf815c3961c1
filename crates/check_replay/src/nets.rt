// The networks that the entries of a log name, in either wiring, and their pairs.
use wirings::Topology;

// A network: the m places from o on, 2 to the power `level` apart. In the paper's wiring they lie side by side.
#[derive(Clone, Copy)]
pub(crate) struct Net {
    topology: Topology,
    start: usize,
    pub size: usize,
    level: u32,
}

// ---- the network that an entry names

// How many halvings below n places the network of m places from o is, in the neighbour wiring: the binary digits of o, the lowest
// first, say which half is next, the one that has the odd places or the even ones.
fn level_of(n: usize, o: usize, m: usize) -> u32 {
    let mut size = n;
    for level in 0..11 {
        let rest = o >> level;
        if size == m && rest == 0 {
            return level;
        }
        let odd = size / 2;
        size = if rest % 2 == 1 { odd } else { size - odd };
    }
    11
}

pub(crate) fn find(topology: Topology, n: usize, o: u16, m: u16) -> Net {
    let start = usize::from(o);
    let size = usize::from(m);
    let level = match topology {
        Topology::Paper => 0,
        Topology::Neighbour => level_of(n, start, size),
    };
    Net {
        topology,
        start,
        size,
        level,
    }
}

impl Net {
    // Where place i of the network lies in the whole.
    pub(crate) fn place(self, i: usize) -> usize {
        self.start.wrapping_add(i << (self.level % 16))
    }

    // ---- pairs, of places as of values

    // How many: m/2 rounded up.
    pub(crate) fn pairs(self) -> usize {
        self.size - self.size / 2
    }

    pub(crate) fn pair(self, x: usize) -> usize {
        let k = self.pairs();
        match self.topology {
            Topology::Paper if x < k => x,
            Topology::Paper => x - k,
            Topology::Neighbour => x / 2,
        }
    }

    // Whether x is the upper one of its pair.
    pub(crate) fn is_upper(self, x: usize) -> bool {
        match self.topology {
            Topology::Paper => self.pairs() <= x,
            Topology::Neighbour => x % 2 == 1,
        }
    }

    // The lower one of pair i, or its upper one.
    pub(crate) fn one_of(self, i: usize, upper: bool) -> usize {
        match self.topology {
            Topology::Paper if upper => i.wrapping_add(self.pairs()),
            Topology::Paper => i,
            Topology::Neighbour => i.wrapping_mul(2) | usize::from(upper),
        }
    }

    // The other one of the pair of x.
    pub(crate) fn other(self, x: usize) -> usize {
        self.one_of(self.pair(x), !self.is_upper(x))
    }
}
