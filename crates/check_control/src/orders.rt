// The order that words draw, and the one that a setting carries.
use std::alloc::{AllocError, Global};

pub(crate) fn order(alloc: Global, n: u16, words: &[u32]) -> Result<Vec<u16>, AllocError> {
    let mut order = vec![in alloc; 0; usize::from(n)]?;
    let _ = shuffle::shuffle(usize::from(n), words, &mut order);
    Ok(order)
}

// The numbers 0 to n - 1, as blocks of two bytes, returned by the setting, since the block at the place that i goes to comes to i.
pub(crate) fn carried(alloc: Global, n: u16, bits: &[u8]) -> Result<Vec<u16>, AllocError> {
    let mut blocks: Vec<[u8; 2]> = (0..n).map(|i| i.to_le_bytes()).collect(alloc)?;
    let mut log = [0; entry_log::MOST_MOVE_WORDS];
    let bytes = blocks.as_flattened_mut();
    let _ = apply::apply_inverse(usize::from(n), 2, bytes, bits, &mut log);
    blocks
        .iter()
        .map(|block| u16::from_le_bytes(*block))
        .collect(alloc)
}
