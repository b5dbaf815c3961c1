// A second mixer, written plainly: a list of the switches, made with a stack of tasks, and exchanges of whole blocks. Sums wrap and a
// position is taken modulo 2^16: no number comes near that, and so nothing has to be proved of it.
use std::alloc::{AllocError, Global};

// ---- the list of switches

// The two places that a switch exchanges, and the position of its bit.
#[derive(Clone, Copy)]
pub(crate) struct Switch {
    lower: u16,
    upper: u16,
    position: u16,
}

// What is to be listed: a network of so many places from a first one on, or its output switches alone.
#[derive(Clone, Copy)]
enum Task {
    Network { start: u16, size: u16 },
    Outputs { start: u16, size: u16 },
}

// Lists `count` switches of a network, whose pairs lie `apart`, behind those listed before.
fn add_layer(
    switches: &mut Vec<Switch>,
    start: u16,
    apart: u16,
    count: u16,
) -> Result<(), AllocError> {
    for i in 0..count {
        let lower = start.wrapping_add(i);
        let upper = lower.wrapping_add(apart);
        let position = (switches.len() % 65536) as u16;
        switches.push(Switch {
            lower,
            upper,
            position,
        })?;
    }
    Ok(())
}

// All switches of n places in the sequence of their bits. A network of 1,024 places makes 3,070 tasks.
pub(crate) fn list(alloc: Global, n: u16) -> Result<Vec<Switch>, AllocError> {
    let mut switches = Vec::new(alloc);
    let mut tasks = vec![in alloc; Task::Network { start: 0, size: n }]?;
    for _ in 0..4096 {
        let Some(task) = tasks.pop() else {
            break;
        };
        match task {
            Task::Network { start, size } if 1 < size => {
                let bottom = size / 2;
                let top = size - bottom;
                add_layer(&mut switches, start, top, top - 1)?;
                tasks.push(Task::Outputs { start, size })?;
                tasks.push(Task::Network {
                    start: start.wrapping_add(top),
                    size: bottom,
                })?;
                tasks.push(Task::Network { start, size: top })?;
            }
            Task::Network { .. } => {}
            Task::Outputs { start, size } => {
                add_layer(&mut switches, start, size - size / 2, size / 2)?;
            }
        }
    }
    Ok(switches)
}

// ---- moving, and logging

// `lower` is the lower place.
fn swap_blocks(blocks: &mut [u8], width: u16, lower: u16, upper: u16) {
    let width = usize::from(width);
    let start = tally::times(usize::from(lower), width);
    let Some((low, high)) = blocks.split_at_mut_checked(tally::times(usize::from(upper), width))
    else {
        return;
    };
    if let Some(low) = low.get_mut(start..start + width) {
        if let Some(high) = high.get_mut(..width) {
            low.swap_with_slice(high);
        }
    }
}

impl Switch {
    fn act(self, blocks: &mut [u8], width: u16, bits: &[u8]) {
        if bits.get(usize::from(self.position)) == Some(&1) {
            swap_blocks(blocks, width, self.lower, self.upper);
        }
    }
}

// Runs switches under their bits, the first one first, and logs them.
pub(crate) fn run(
    switches: &[Switch],
    blocks: &mut [u8],
    width: u16,
    bits: &[u8],
    log: &mut Vec<u16>,
) -> Result<(), AllocError> {
    for switch in switches {
        switch.act(blocks, width, bits);
        log.extend_from_slice(&[7, switch.lower, switch.upper, switch.position])?;
    }
    Ok(())
}

// Runs entries of a log one after the other, each by its own words, with the kind as 01's number: a second way does not use the
// library's `Kind`. How many there were before them is not told.
pub(crate) fn replay(entries: &[[u16; 4]], blocks: &mut [u8], width: u16, bits: &[u8]) {
    for [kind, lower, upper, position] in entries {
        if *kind == 7 {
            let switch = Switch {
                lower: *lower,
                upper: *upper,
                position: *position,
            };
            switch.act(blocks, width, bits);
        }
    }
}
