// Runs set, and mix and return on what it leaves, against a second setter, a direct scatter of the blocks and a plainly written
// log. Prints how much was compared and how much of it was equal.
#![tactic(auto)]

mod nets;
mod orders;
mod plain_setter;
mod refusals;

use check_cases::{BEHIND, Size};
use nets::Nets;
use std::alloc::{AllocError, Global};
use std::io;
use tally::Tally;

// ---- one order

// Mixed, each block is where the order says; returned, it is home.
fn carry(
    alloc: Global,
    tally: &mut Tally,
    order: &[u16],
    bits: &[u8],
    width: u16,
) -> Result<(), AllocError> {
    let n = order.len();
    let w = bits.len();
    let bytes = tally::times(n, usize::from(width));
    let home = check_cases::blocks(alloc, bytes + BEHIND)?;
    let away = check_cases::scattered(alloc, &home, order, width)?;
    let mut blocks = home.clone()?;
    let mut log = [0; entry_log::MOST_MOVE_WORDS];
    let lent = &mut blocks[..bytes];
    let answer = apply::apply(n, usize::from(width), lent, bits, &mut log);
    tally.count(tally::answered(answer, 0, 0, w));
    tally.compare(&blocks, &away);
    let lent = &mut blocks[..bytes];
    let answer = apply::apply_inverse(n, usize::from(width), lent, bits, &mut log);
    tally.count(tally::answered(answer, 0, 0, w));
    tally.compare(&blocks, &home);
    Ok(())
}

// Set into buffers full of `old`: the answer, all the bits and all the words of the log, with up to two more than its entries.
fn set(
    alloc: Global,
    tally: &mut Tally,
    order: &[u16],
    nets: &Nets,
    old: u8,
) -> Result<Vec<u8>, AllocError> {
    let w = usize::from(nets.whole.bits);
    let entries = usize::from(nets.whole.entries);
    let room = entries * 4 + usize::from(old % 3);
    let mut bits = vec![in alloc; old; w + BEHIND]?;
    let mut log = vec![in alloc; u16::from(old); room + BEHIND]?;
    let mut right = bits.clone()?;
    let mut right_log = log.clone()?;
    let answer = control::control_bits(order, &mut bits[..w], &mut log[..room]);
    plain_setter::set(alloc, order, nets, &mut right)?;
    nets.write_log(&mut right_log);
    tally.count(tally::answered(answer, 0, 0, entries));
    tally.compare(&bits, &right);
    tally.count(tally::same_words(&log, &right_log));
    bits.truncate(w);
    Ok(bits)
}

// ---- orders and settings

// Orders number 1 and up of some sizes, each drawn by the words behind its number.
fn check_orders<W>(alloc: Global, sizes: &[Size], words: W) -> Result<Tally, AllocError>
where
    W: Fn(Global, u32, u16) -> Result<Vec<u32>, AllocError>,
    requires { W.IsAlwaysCallable words }
{
    let mut tally = Tally::new();
    for size in sizes {
        let n = size.places;
        let nets = nets::list(alloc, n)?;
        for c in 1..=size.orders {
            let order = orders::order(alloc, n, &words(alloc, c, n)?)?;
            let bits = set(alloc, &mut tally, &order, &nets, (c % 256) as u8)?;
            for width in [1, 6, 255, 256] {
                carry(alloc, &mut tally, &order, &bits, width)?;
            }
        }
    }
    Ok(tally)
}

// What was compared; among settings, how many of them are canonical.
struct Settings {
    checks: Tally,
    canonical: Tally,
}

// The order that a setting carries is set: that carries the same order, and is the setting itself where it is canonical.
fn check_settings(alloc: Global, sizes: &[Size]) -> Result<Settings, AllocError> {
    let mut checks = Tally::new();
    let mut canonical = Tally::new();
    for size in sizes {
        let n = size.places;
        let nets = nets::list(alloc, n)?;
        for c in 1..=size.settings {
            let bits = check_cases::setting(alloc, c, usize::from(nets.whole.bits))?;
            let order = orders::carried(alloc, n, &bits)?;
            let own = set(alloc, &mut checks, &order, &nets, 0)?;
            checks.compare(&orders::carried(alloc, n, &own)?, &order);
            canonical.compare(&own, &bits);
        }
    }
    Ok(Settings { checks, canonical })
}

// Order (0,3,2,1,4). Its last pair holds its own associates and is a ring by itself; pairs 0 and 1 are the other ring, in
// which pair 0 has bit 0 and so pair 1 bit 1. Where the last pair with a switch counted as bit 0 they would be 1 and 0.
fn telling() -> Tally {
    let mut tally = Tally::new();
    let mut bits = [7; 8];
    let mut log = [0; 100];
    let answer = control::control_bits(&[0, 3, 2, 1, 4], &mut bits, &mut log);
    tally.count(tally::answered(answer, 0, 0, 25));
    tally.compare(&bits, &[0, 1, 0, 0, 0, 1, 0, 1]);
    tally
}

fn main(rt: HostRuntime) -> io::Result<()> {
    let alloc = rt.alloc();
    let small = check_cases::small();
    let large = check_cases::large();
    let orders = check_orders(alloc, &small, check_cases::numbered)?;
    let _ = println!(rt; "all orders of up to 6 places: {orders}");
    let orders = check_orders(alloc, &large, check_cases::drawn)?;
    let _ = println!(rt; "25 drawn orders at each of 12 sizes up to 1024: {orders}");
    let Settings { checks, canonical } = check_settings(alloc, &small)?;
    let _ = println!(rt; "orders of all settings of up to 6 places: {checks}");
    let _ = println!(rt; "  and with the canonical one: {canonical}");
    let Settings { checks, canonical } = check_settings(alloc, &large)?;
    let _ = println!(rt; "orders of 2 drawn settings at each of 12 sizes: {checks}");
    let _ = println!(rt; "  and with the canonical one: {canonical}");
    let telling = telling();
    let _ = println!(rt; "order 0 3 2 1 4: {telling}");
    let refusals = refusals::all(alloc)?;
    let _ = println!(rt; "refusals of set: {refusals}");
    Ok(())
}
