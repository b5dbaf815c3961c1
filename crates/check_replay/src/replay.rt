// The steps of a setter's log, in either wiring, on a hidden table of its own.
use crate::nets::{self, Net};
use check_cases::{exchange, put};
use std::alloc::{AllocError, Global};
use wirings::Topology;

// An entry's words: its kind, its network's first place and how many there are, the position of a bit.
pub(crate) type Entry = [u16; 4];

// What is at a place. The lowest binary digit of a trail is its last bit.
#[derive(Clone, Copy)]
struct Cell {
    value: usize,
    trail: usize,
}

// The table, a mark for each pair, the bits; f, c, g, s of document 01; and the position of the bits that the next step writes or acts
// by. A plain walk counts it: a network's input bits are passed in its step 4, its output bits in its step 6, and those of its halves
// between.
#[derive(Drop)]
pub(crate) struct Replay {
    topology: Topology,
    table: Vec<Cell>,
    marks: Vec<bool>,
    pub bits: Vec<u8>,
    f: usize,
    c: usize,
    g: usize,
    s: usize,
    bit: usize,
}

impl Replay {
    // An order, and w bits that are all 0.
    pub(crate) fn new(
        alloc: Global,
        topology: Topology,
        order: &[u16],
        w: usize,
    ) -> Result<Replay, AllocError> {
        let table = order
            .iter()
            .map(|place| Cell {
                value: usize::from(*place),
                trail: 0,
            })
            .collect(alloc)?;
        let marks = vec![in alloc; false; order.len()]?;
        let bits = vec![in alloc; 0; w]?;
        Ok(Replay {
            topology,
            table,
            marks,
            bits,
            f: 0,
            c: 0,
            g: 0,
            s: 0,
            bit: 0,
        })
    }

    // Whether each place holds its own number, and no trail.
    pub(crate) fn is_home(&self) -> bool {
        self.table
            .iter()
            .enumerate()
            .all(|(p, cell)| cell.value == p && cell.trail == 0)
    }

    // ---- the table

    fn cell(&self, net: Net, i: usize) -> Cell {
        let nothing = Cell { value: 0, trail: 0 };
        self.table.get(net.place(i)).copied().unwrap_or(nothing)
    }

    // The value at place p. Place m is imagined and holds value m.
    fn value(&self, net: Net, p: usize) -> usize {
        if p < net.size {
            self.cell(net, p).value
        } else {
            net.size
        }
    }

    // The place that holds a value.
    fn place_of(&self, net: Net, value: usize) -> usize {
        for p in 0..net.size {
            if self.cell(net, p).value == value {
                return p;
            }
        }
        net.size
    }

    // The lowest of the pairs that is marked, or that is not.
    fn lowest(&self, net: Net, mark: bool) -> Option<usize> {
        self.marks.iter().take(net.pairs()).position(|m| *m == mark)
    }

    // ---- the steps

    // 1. If no pair is marked, f = c = k - 1, or 2k - 2 in the neighbour wiring. Then g is the value at f.
    fn step1(&mut self, net: Net) {
        if self.lowest(net, true) == None {
            self.f = net.one_of(net.pairs().saturating_sub(1), false);
            self.c = self.f;
        }
        self.g = self.value(net, self.f);
    }

    // 2. s is the place that holds g's associate. Value m, for odd m, is held by the imagined place m.
    fn step2(&mut self, net: Net) {
        self.s = self.place_of(net, net.other(self.g));
    }

    // 3. If s's pair has an input switch, its bit is 1 where s is the lower place of it, else 0. The pair is marked and f is the other
    // place of it. If f = c and a pair is unmarked, f = c = the lower place of the lowest unmarked pair.
    fn step3(&mut self, net: Net) {
        let i = net.pair(self.s);
        if i.wrapping_add(1) < net.pairs() {
            let bit = u8::from(!net.is_upper(self.s));
            put(&mut self.bits, self.bit.wrapping_add(i), bit);
        }
        put(&mut self.marks, i, true);
        self.f = net.other(self.s);
        if self.f == self.c {
            if let Some(low) = self.lowest(net, false) {
                self.f = net.one_of(low, false);
                self.c = self.f;
            }
        }
    }

    // The first switches act on the table, under the bits that are next, which are passed.
    fn act(&mut self, net: Net, switches: usize) {
        for i in 0..switches {
            if self.bits.get(self.bit.wrapping_add(i)) == Some(&1) {
                let p = net.place(net.one_of(i, false));
                let q = net.place(net.one_of(i, true));
                exchange(&mut self.table, p, q);
            }
        }
        self.bit = self.bit.wrapping_add(switches);
    }

    // 4. The input switches act on the table and all marks are cleared.
    fn step4(&mut self, net: Net) {
        self.act(net, net.pairs().saturating_sub(1));
        self.marks.fill(false);
    }

    // 5. Each value becomes the number of its pair, and gains 1 on its trail where it was the upper one of it, else 0.
    fn step5(&mut self, net: Net) {
        for p in 0..net.size {
            let Cell { value, trail } = self.cell(net, p);
            let gained = Cell {
                value: net.pair(value),
                trail: trail.wrapping_mul(2) | usize::from(net.is_upper(value)),
            };
            put(&mut self.table, net.place(p), gained);
        }
    }

    // 6. For i = 0 to m-k-1, output bit i is the last trail bit at the lower place of pair i, and the switches act. Then every trail
    // loses its last bit and the value becomes that one of its pair which the bit says.
    fn step6(&mut self, net: Net) {
        for i in 0..net.size / 2 {
            let upper = self.cell(net, net.one_of(i, false)).trail % 2 == 1;
            put(&mut self.bits, self.bit.wrapping_add(i), u8::from(upper));
        }
        self.act(net, net.size / 2);
        for p in 0..net.size {
            let Cell { value, trail } = self.cell(net, p);
            let regained = Cell {
                value: net.one_of(value, trail % 2 == 1),
                trail: trail / 2,
            };
            put(&mut self.table, net.place(p), regained);
        }
    }

    // ---- the entries

    // One entry: the step of its kind, by 01's number, on its network. A second way does not use the library's `Kind`.
    fn step(&mut self, entry: &Entry) {
        let [kind, o, m, _] = *entry;
        let net = nets::find(self.topology, self.table.len(), o, m);
        match kind {
            1 => self.step1(net),
            2 => self.step2(net),
            3 => self.step3(net),
            4 => self.step4(net),
            5 => self.step5(net),
            6 => self.step6(net),
            _ => {}
        }
    }

    // A plain walk: entries from the first one on.
    pub(crate) fn walk(&mut self, entries: &[Entry]) {
        for entry in entries {
            self.step(entry);
        }
    }

    // Entries one after the other, each by its own words. How many there were before them is not told.
    pub(crate) fn run_by_words(&mut self, entries: &[Entry]) {
        for entry in entries {
            self.bit = named(entry);
            self.step(entry);
        }
    }
}

// Where a step's bits begin, by the words of its entry: those of step 6 are the last of its network's.
fn named(entry: &Entry) -> usize {
    let [kind, _, m, bit] = *entry;
    let bit = usize::from(bit);
    let m = usize::from(m);
    if kind != 6 || 1024 < m {
        return bit;
    }
    (bit + counts::switches(m)).wrapping_sub(m / 2)
}
