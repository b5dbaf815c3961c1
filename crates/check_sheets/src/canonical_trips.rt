// The settings that set makes of drawn orders: the sheet of each reads back as that setting.
ghost use Rattle.std.specs.Prelude.{◌≤◌};

use crate::plain;
use std::alloc::{AllocError, Global};
use tally::Tally;

// The setting of an order of n places.
fn setting(alloc: Global, n: usize, seed: u32) -> Result<Vec<u8>, AllocError>
    requires { n ≤ 1024 }
{
    let mut order = vec![in alloc; 0u16; n]?;
    let mut bits = vec![in alloc; 2u8; plain::switches(n)]?;
    let mut log = [0u16; entry_log::MOST_SET_WORDS];
    let _ = shuffle::shuffle(n, &tally::words(seed), &mut order);
    let _ = control::control_bits(&order, &mut bits, &mut log);
    Ok(bits)
}

fn trip(alloc: Global, tally: &mut Tally, n: usize) -> Result<(), AllocError>
    requires { n ≤ 1024 }
{
    let bits = setting(alloc, n, n as u32 + 1)?;
    let mut sheet = vec![in alloc; 0u8; 1400]?;
    let Ok(end) = sheet_writer::write_sheet(n, &bits, &mut sheet) else {
        tally.count(false);
        return Ok(());
    };
    sheet.truncate(end);
    crate::back(alloc, tally, &sheet, &bits)
}

// Every n from 0 to 1,024.
pub(crate) fn trips(alloc: Global) -> Result<Tally, AllocError> {
    let mut tally = Tally::new();
    for n in 0..1025 {
        trip(alloc, &mut tally, n)?;
    }
    Ok(tally)
}
