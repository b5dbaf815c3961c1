// The order that words draw, and the one that a setting carries.
use crate::lists::Layers;
use crate::replay;
use check_cases::exchange;
use std::alloc::{AllocError, Global};

// The entries from the last back are exchanged with one up to them.
pub(crate) fn order(alloc: Global, n: u16, words: &[u32]) -> Result<Vec<u16>, AllocError> {
    let mut order: Vec<u16> = (0..n).collect(alloc)?;
    for i in 0..n {
        let left = n - i;
        let word = words.get(usize::from(i)).copied().unwrap_or(0);
        let j = word % u32::from(left);
        exchange(&mut order, usize::from(left - 1), j as usize);
    }
    Ok(order)
}

// Its switches act on the places, the last first, and then place i holds the one to which i goes.
pub(crate) fn carried(alloc: Global, layers: &Layers, bits: &[u8]) -> Result<Vec<u16>, AllocError> {
    let places: Vec<u16> = (0..layers.places).collect(alloc)?;
    replay::mixing(alloc, layers, &places, bits)?
        .returning()
        .run()
}
