// Runs logs of mix and return on a list of places: where the bits are counted, and by the words of the entries alone.
use crate::lists::Layers;
use crate::logs::{self, Entry};
use check_cases::exchange;
use std::alloc::{AllocError, Global};

// What mix or return is to do: its entries, each under the bit at its number, and a list of places before them and behind them.
#[derive(Drop)]
pub(crate) struct Moves {
    pub entries: Vec<Entry>,
    pub bits: Vec<u8>,
    pub before: Vec<u16>,
    pub behind: Vec<u16>,
}

// Mixing by an order brings the order's entries home.
pub(crate) fn mixing(
    alloc: Global,
    layers: &Layers,
    order: &[u16],
    bits: &[u8],
) -> Result<Moves, AllocError> {
    Ok(Moves {
        entries: logs::moves(alloc, layers)?,
        bits: bits.to_vec(alloc)?,
        before: order.to_vec(alloc)?,
        behind: (0..layers.places).collect(alloc)?,
    })
}

impl Moves {
    // Returning does the same backwards: it brings the places to where the order says.
    pub(crate) fn returning(self) -> Moves {
        let Moves {
            mut entries,
            mut bits,
            before,
            behind,
        } = self;
        entries.reverse();
        bits.reverse();
        Moves {
            entries,
            bits,
            before: behind,
            behind: before,
        }
    }

    // The places behind the first entries, up to number `to`.
    fn counted(&self, to: usize) -> Result<Vec<u16>, AllocError> {
        let mut places = self.before.clone()?;
        for ([_, lower, upper, _], bit) in self.entries.iter().zip(&self.bits).take(to) {
            if *bit == 1 {
                exchange(&mut places, usize::from(*lower), usize::from(*upper));
            }
        }
        Ok(places)
    }

    pub(crate) fn run(&self) -> Result<Vec<u16>, AllocError> {
        self.counted(self.entries.len())
    }

    // Up to entry e the moves are run, from there on a log that was written. Says whether that brings the places to where they have to be.
    pub(crate) fn from_middle(
        &self,
        log: &[u16],
        bits: &[u8],
        e: usize,
    ) -> Result<bool, AllocError> {
        let mut places = self.counted(e)?;
        let (entries, _) = log.as_chunks::<4>();
        if let Some(rest) = entries.get(e..self.entries.len()) {
            by_words(&mut places, rest, bits);
        }
        Ok(places == self.behind)
    }
}

// Entries one after the other, each under the bit at its own position. How many there were before them is not told.
fn by_words(places: &mut [u16], entries: &[Entry], bits: &[u8]) {
    for [kind, lower, upper, position] in entries {
        if *kind == 7 && bits.get(usize::from(*position)) == Some(&1) {
            exchange(places, usize::from(*lower), usize::from(*upper));
        }
    }
}

// The number of an entry, drawn by an order and a width.
pub(crate) fn drawn(order: &[u16], width: u16, w: usize) -> usize {
    let first = order.first().copied().unwrap_or(0);
    let second = order.get(1).copied().unwrap_or(1);
    let seed = u32::from(first) * 1024 + u32::from(second) * 7 + u32::from(width % 512);
    check_cases::entry_number(tally::next(seed), w)
}
