// The order's bytes read plainly, and blocks scattered by it.
ghost use Rattle.std.specs.Prelude.{◌<◌};

use std::alloc::{AllocError, Global};

// The numbers of an order's bytes, each in one byte or in two.
fn numbers(alloc: Global, bytes: &[u8]) -> Result<Vec<usize>, AllocError> {
    let mut numbers = Vec::new(alloc);
    let mut low: Option<u8> = None;
    for byte in bytes {
        match low.take() {
            Some(seven_bits) => {
                numbers.push(usize::from(seven_bits) + 128 * usize::from(*byte))?;
            }
            None if *byte < 128 => numbers.push(usize::from(*byte))?,
            None => low = Some(*byte - 128),
        }
    }
    if let Some(seven_bits) = low {
        numbers.push(usize::from(seven_bits))?;
    }
    Ok(numbers)
}

// The blocks of home scattered by the entries, which stand behind their count.
pub(crate) fn scatter(
    alloc: Global,
    order: &[u8],
    width: usize,
    home: &[u8],
) -> Result<Vec<u8>, AllocError>
    requires { 0 < width }
{
    let mut out = vec![in alloc; 0u8; home.len()]?;
    let numbers = numbers(alloc, order)?;
    for (block, entry) in home.chunks_exact(width).zip(numbers.iter().skip(1)) {
        let start = entry.saturating_mul(width);
        if let Some(place) = out
            .as_mut_slice()
            .get_mut(start..start.saturating_add(width))
        {
            place.copy_from_slice(block);
        }
    }
    Ok(out)
}
