// Runs set, mix and return in the neighbour wiring, and the converter, against a list of switches made with a stack of tasks, a setter
// that colours pairs and a direct scatter of the blocks. Prints how much was compared and how much of it was equal.
#![tactic(auto)]

mod colours;
mod conversions;
mod lists;
mod logs;
mod orders;
mod replay;

use answers::Refusal;
use check_cases::{BEHIND, Size};
use lists::Layers;
use replay::Moves;
use std::alloc::{AllocError, Global};
use std::io;
use tally::Tally;
use wirings::Topology;

// What stands in a log where no entry is: no entry has this word.
const OLD: u16 = 43981;

// Whether a buffer that was full of `old` begins with what was to be written, and is as it was behind that.
fn is_written<T: Copy + PartialEq>(found: &[T], right: &[T], old: T) -> bool {
    match found.strip_prefix(right) {
        Some(behind) => behind.iter().all(|x| *x == old),
        None => false,
    }
}

// An order, a setting that carries it, and the order's own setting.
#[derive(Clone, Copy)]
struct Case<'a> {
    layers: &'a Layers,
    order: &'a [u16],
    bits: &'a [u8],
    own: &'a [u8],
}

// ---- one order

// A log of so many entries, up to three words more, and what lies behind.
fn log(alloc: Global, entries: usize, more: u16) -> Result<Vec<u16>, AllocError> {
    let words = entries
        .saturating_mul(4)
        .saturating_add(usize::from(more % 4))
        .saturating_add(BEHIND);
    vec![in alloc; OLD; words]
}

// Mix or return by a setting that carries an order: the answer, all the words of the log, and what the log leaves, run from a drawn
// entry on.
fn check_call<F>(
    tally: &mut Tally,
    case: &Case,
    call: F,
    moves: &Moves,
    blocks: &mut [u8],
    width: u16,
) -> Result<(), AllocError>
where
    F: Fn(Topology, usize, usize, &mut [u8], &[u8], &mut [u16]) -> Result<usize, Refusal>,
    requires { F.IsAlwaysCallable call }
{
    let n = case.order.len();
    let w = moves.entries.len();
    let mut log = log(*moves.entries.allocator(), w, width)?;
    let room = log.len().saturating_sub(BEHIND);
    let answer = call(
        Topology::Neighbour,
        n,
        usize::from(width),
        blocks,
        case.bits,
        &mut log[..room],
    );
    tally.count(tally::answered(answer, 0, 0, w));
    tally.count(is_written(&log, moves.entries.as_flattened(), OLD));
    let e = replay::drawn(case.order, width, w);
    tally.count(moves.from_middle(&log, case.bits, e)?);
    Ok(())
}

// Mixed, each block is where the order says; returned, it is home.
fn carry(alloc: Global, tally: &mut Tally, case: &Case, width: u16) -> Result<(), AllocError> {
    let bytes = tally::times(case.order.len(), usize::from(width));
    let home = check_cases::blocks(alloc, bytes + BEHIND)?;
    let away = check_cases::scattered(alloc, &home, case.order, width)?;
    let mut blocks = home.clone()?;
    let moves = replay::mixing(alloc, case.layers, case.order, case.bits)?;
    check_call(
        tally,
        case,
        apply::apply_in,
        &moves,
        &mut blocks[..bytes],
        width,
    )?;
    tally.compare(&blocks, &away);
    let moves = moves.returning();
    check_call(
        tally,
        case,
        apply::apply_inverse_in,
        &moves,
        &mut blocks[..bytes],
        width,
    )?;
    tally.compare(&blocks, &home);
    Ok(())
}

// Set: the answer, all the bits and all the words of the log.
fn set(alloc: Global, tally: &mut Tally, case: &Case) -> Result<(), AllocError> {
    let w = case.own.len();
    let steps = logs::steps(alloc, case.layers)?;
    let mut bits = vec![in alloc; 7; w.saturating_add(BEHIND)]?;
    let mut log = log(alloc, steps.len(), case.layers.places)?;
    let room = log.len().saturating_sub(BEHIND);
    let answer = control::control_bits_in(
        Topology::Neighbour,
        case.order,
        &mut bits[..w],
        &mut log[..room],
    );
    tally.count(tally::answered(answer, 0, 0, steps.len()));
    tally.count(is_written(&bits, case.own, 7));
    tally.count(is_written(&log, steps.as_flattened(), OLD));
    Ok(())
}

// ---- orders and settings

// What was compared; of conversions; among settings, how many of them are canonical.
#[derive(Clone, Copy)]
struct Run {
    checks: Tally,
    conversions: Tally,
    canonical: Tally,
}

impl Run {
    fn new() -> Run {
        Run {
            checks: Tally::new(),
            conversions: Tally::new(),
            canonical: Tally::new(),
        }
    }

    fn check(&mut self, alloc: Global, case: &Case) -> Result<(), AllocError> {
        set(alloc, &mut self.checks, case)?;
        for width in [1, 6, 255, 256] {
            carry(alloc, &mut self.checks, case, width)?;
        }
        conversions::there_and_back(alloc, &mut self.conversions, case)?;
        conversions::of_paper(alloc, &mut self.conversions, case)?;
        self.canonical.compare(&case.own, &case.bits);
        Ok(())
    }
}

// Orders number 1 and up of some sizes, each drawn by the words behind its number, with their own settings.
fn check_orders<W>(alloc: Global, sizes: &[Size], words: W) -> Result<Run, AllocError>
where
    W: Fn(Global, u32, u16) -> Result<Vec<u32>, AllocError>,
    requires { W.IsAlwaysCallable words }
{
    let mut run = Run::new();
    for size in sizes {
        let n = size.places;
        let layers = lists::list(alloc, n)?;
        for c in 1..=size.orders {
            let order = orders::order(alloc, n, &words(alloc, c, n)?)?;
            let own = colours::set(alloc, &layers, &order)?;
            let case = Case {
                layers: &layers,
                order: &order,
                bits: &own,
                own: &own,
            };
            run.check(alloc, &case)?;
        }
    }
    Ok(run)
}

// Settings number 1 and up of some sizes, with the orders that they carry.
fn check_settings(alloc: Global, sizes: &[Size]) -> Result<Run, AllocError> {
    let mut run = Run::new();
    for size in sizes {
        let layers = lists::list(alloc, size.places)?;
        for c in 1..=size.settings {
            let bits = check_cases::setting(alloc, c, usize::from(layers.switches))?;
            let order = orders::carried(alloc, &layers, &bits)?;
            let own = colours::set(alloc, &layers, &order)?;
            let case = Case {
                layers: &layers,
                order: &order,
                bits: &bits,
                own: &own,
            };
            run.check(alloc, &case)?;
        }
    }
    Ok(run)
}

fn main(rt: HostRuntime) -> io::Result<()> {
    let alloc = rt.alloc();
    let small = check_cases::small();
    let large = check_cases::large();
    let Run {
        checks,
        conversions,
        canonical: _,
    } = check_orders(alloc, &small, check_cases::numbered)?;
    let _ = println!(rt; "all orders of up to 6 places: {checks}");
    let _ = println!(rt; "  converted both ways: {conversions}");
    let Run {
        checks,
        conversions,
        canonical: _,
    } = check_orders(alloc, &large, check_cases::drawn)?;
    let _ = println!(rt; "25 drawn orders at each of 12 sizes up to 1024: {checks}");
    let _ = println!(rt; "  converted both ways: {conversions}");
    let Run {
        checks,
        conversions,
        canonical,
    } = check_settings(alloc, &small)?;
    let _ = println!(rt; "all settings of up to 6 places: {checks}");
    let _ = println!(rt; "  converted both ways: {conversions}");
    let _ = println!(rt; "  and with the canonical one: {canonical}");
    let Run {
        checks,
        conversions,
        canonical,
    } = check_settings(alloc, &large)?;
    let _ = println!(rt; "2 drawn settings at each of 12 sizes: {checks}");
    let _ = println!(rt; "  converted both ways: {conversions}");
    let _ = println!(rt; "  and with the canonical one: {canonical}");
    Ok(())
}
