// The networks within a network of n places, listed without recursion, each before its halves. And the setter's log, written out
// from that list. Sums wrap and a size is taken modulo 1,025: no number here comes near its bound, and so nothing has to be proved of it.
use check_cases::up;
use std::alloc::{AllocError, Global};

// How many bits and entries a network has.
#[derive(Clone, Copy)]
struct Counts {
    bits: u16,
    entries: u16,
}

// A network: its first place, how many places, the position of its first bit, how many bits, the number of its first entry, how
// many entries.
#[derive(Clone, Copy)]
pub(crate) struct Net {
    pub start: u16,
    pub size: u16,
    pub bit: u16,
    pub bits: u16,
    pub entry: u16,
    pub entries: u16,
}

// How many entries of a network of m places stand before those of its halves: steps 1, 2, 3 for each pair, 4, 5; for two
// places step 5 alone.
fn entries_before(m: u16) -> u16 {
    if m == 2 {
        1
    } else {
        up(m).wrapping_mul(3).wrapping_add(2)
    }
}

// For each size up to 1,024, from the counts of the halves, smallest first.
fn counts_by_size() -> [Counts; 1025] {
    let mut counts = [Counts {
        bits: 0,
        entries: 0,
    }; 1025];
    for m in 2..1025u16 {
        let top = counts[usize::from(up(m))];
        let bottom = counts[usize::from(m / 2)];
        counts[usize::from(m)] = Counts {
            bits: (m - 1).wrapping_add(top.bits).wrapping_add(bottom.bits),
            entries: entries_before(m)
                .wrapping_add(top.entries)
                .wrapping_add(bottom.entries)
                .wrapping_add(1),
        };
    }
    counts
}

impl Net {
    fn new(counts: &[Counts; 1025], start: u16, size: u16, bit: u16, entry: u16) -> Net {
        let Counts { bits, entries } = counts[usize::from(size % 1025)];
        Net {
            start,
            size,
            bit,
            bits,
            entry,
            entries,
        }
    }

    // The top half, behind what the network has before its halves.
    fn top(self, counts: &[Counts; 1025]) -> Net {
        let size = up(self.size);
        let bit = self.bit.wrapping_add(size.saturating_sub(1));
        let entry = self.entry.wrapping_add(entries_before(self.size));
        Net::new(counts, self.start, size, bit, entry)
    }

    // The bottom half, behind the top half.
    fn bottom(self, counts: &[Counts; 1025]) -> Net {
        let top = self.top(counts);
        let start = top.start.wrapping_add(top.size);
        let bit = top.bit.wrapping_add(top.bits);
        let entry = top.entry.wrapping_add(top.entries);
        Net::new(counts, start, self.size / 2, bit, entry)
    }
}

// The whole, and the networks within it: for 1,024 places 2,047.
#[derive(Drop)]
pub(crate) struct Nets {
    pub whole: Net,
    pub all: Vec<Net>,
}

pub(crate) fn list(alloc: Global, n: u16) -> Result<Nets, AllocError> {
    let counts = counts_by_size();
    let whole = Net::new(&counts, 0, n, 0, 0);
    let mut all = vec![in alloc; whole]?;
    for j in 0..2047 {
        let Some(net) = all.get(j).copied() else {
            break;
        };
        if 1 < net.size {
            all.push(net.top(&counts))?;
            all.push(net.bottom(&counts))?;
        }
    }
    Ok(Nets { whole, all })
}

// ---- the log

impl Net {
    // An entry of the network: number `entry`, and its kind, by 01's number: a second way does not use the library's `Kind`.
    fn write(self, log: &mut [u16], entry: u16, kind: u16) {
        let at = 4 * usize::from(entry);
        if let Some(words) = log.get_mut(at..at + 4) {
            words.copy_from_slice(&[kind, self.start, self.size, self.bit]);
        }
    }

    // Steps 1, 2, 3 for each pair, then 4, where there are more than two places; then 5; the last entry is step 6.
    fn write_all(self, log: &mut [u16]) {
        let mut entry = self.entry;
        if 2 < self.size {
            for _pair in 0..up(self.size) {
                for step in 1..=3 {
                    self.write(log, entry, step);
                    entry = entry.wrapping_add(1);
                }
            }
            self.write(log, entry, 4);
            entry = entry.wrapping_add(1);
        }
        self.write(log, entry, 5);
        let last = self.entry.wrapping_add(self.entries).wrapping_sub(1);
        self.write(log, last, 6);
    }
}

impl Nets {
    pub(crate) fn write_log(&self, log: &mut [u16]) {
        for net in self.all.iter().filter(|net| 1 < net.size) {
            net.write_all(log);
        }
    }
}
