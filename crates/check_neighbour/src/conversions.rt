// The converter, both ways, against the second setter and the scatter here, and against set and mix in the paper's wiring, which other
// programs compare with second computations of theirs.
use crate::{Case, colours, orders};
use check_cases::BEHIND;
use std::alloc::{AllocError, Global};
use tally::Tally;
use wirings::Topology;

// One conversion: what it wrote, its answer, and what lies behind.
fn converted(
    alloc: Global,
    tally: &mut Tally,
    from: Topology,
    n: u16,
    given: &[u8],
) -> Result<Vec<u8>, AllocError> {
    let w = given.len();
    let mut out = vec![in alloc; 7; w.saturating_add(BEHIND)]?;
    let answer = convert::convert(from, usize::from(n), given, &mut out[..w]);
    let kept = out.iter().skip(w).all(|bit| *bit == 7);
    tally.count(kept && tally::answered(answer, 0, 0, 0));
    out.truncate(w);
    Ok(out)
}

// A setting of the neighbour wiring that carries an order becomes what set leaves in the paper's wiring, which mixes by the order; and
// that becomes the order's own setting in the neighbour wiring.
pub(crate) fn there_and_back(
    alloc: Global,
    tally: &mut Tally,
    case: &Case,
) -> Result<(), AllocError> {
    let n = case.layers.places;
    let mut right = vec![in alloc; 7; case.bits.len()]?;
    let mut log = [0; entry_log::MOST_SET_WORDS];
    let _ = control::control_bits_in(Topology::Paper, case.order, &mut right, &mut log);
    let out = converted(alloc, tally, Topology::Neighbour, n, case.bits)?;
    let back = converted(alloc, tally, Topology::Paper, n, &out)?;
    tally.compare(&out, &right);
    tally.compare(&back.as_slice(), &case.own);
    mixed(alloc, tally, &out, case.order)
}

// A setting of the paper's wiring, whatever it is, becomes an order's own setting in the neighbour wiring, and mixes by that order.
pub(crate) fn of_paper(alloc: Global, tally: &mut Tally, case: &Case) -> Result<(), AllocError> {
    let layers = case.layers;
    let out = converted(alloc, tally, Topology::Paper, layers.places, case.bits)?;
    let order = orders::carried(alloc, layers, &out)?;
    let right = colours::set(alloc, layers, &order)?;
    mixed(alloc, tally, case.bits, &order)?;
    tally.compare(&out, &right);
    Ok(())
}

// Mixed in the paper's wiring by a setting, blocks are where an order says.
fn mixed(alloc: Global, tally: &mut Tally, bits: &[u8], order: &[u16]) -> Result<(), AllocError> {
    let n = order.len();
    let bytes = tally::times(n, 6);
    let mut blocks = check_cases::blocks(alloc, bytes + BEHIND)?;
    let away = check_cases::scattered(alloc, &blocks, order, 6)?;
    let mut log = [0; entry_log::MOST_MOVE_WORDS];
    let _ = apply::apply_in(Topology::Paper, n, 6, &mut blocks[..bytes], bits, &mut log);
    tally.compare(&blocks, &away);
    Ok(())
}
