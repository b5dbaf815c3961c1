// The entries of the logs, written out from the list of layers.
use crate::lists::{Kind, Layer, Layers};
use std::alloc::{AllocError, Global};

// An entry's words: its kind, the two places or the first place and how many there are, the position of a bit. The kinds are 01's numbers:
// a second way does not use the library's `Kind`.
pub(crate) type Entry = [u16; 4];

// Mix: an entry for each switch, in the sequence of the bits.
pub(crate) fn moves(alloc: Global, layers: &Layers) -> Result<Vec<Entry>, AllocError> {
    let mut entries = Vec::new(alloc);
    for layer in &layers.all {
        for i in 0..layer.count() {
            let lower = i.wrapping_mul(2);
            let upper = lower.wrapping_add(1);
            let bit = layer.bit().wrapping_add(i);
            entries.push([7, layer.net.place(lower), layer.net.place(upper), bit])?;
        }
    }
    Ok(entries)
}

// Set: a network's steps before its halves, or the one behind them.
fn push_steps(entries: &mut Vec<Entry>, layer: &Layer) -> Result<(), AllocError> {
    let net = layer.net;
    let step = |kind| [kind, net.start, net.size, net.first];
    match layer.kind {
        Kind::Outputs => entries.push(step(6))?,
        Kind::Inputs => {
            if net.size != 2 {
                for _pair in 0..net.pairs() {
                    entries.extend_from_slice(&[step(1), step(2), step(3)])?;
                }
                entries.push(step(4))?;
            }
            entries.push(step(5))?;
        }
    }
    Ok(())
}

pub(crate) fn steps(alloc: Global, layers: &Layers) -> Result<Vec<Entry>, AllocError> {
    let mut entries = Vec::new(alloc);
    for layer in &layers.all {
        push_steps(&mut entries, layer)?;
    }
    Ok(entries)
}
