// A second setter, by another way: each ring is followed by looking places and values up, and an output bit is read off
// the value that the top half has to bring. No trail, no marks, no sweeps; the networks come from a list.
use crate::nets::{Net, Nets};
use check_cases::{find_homes, put, up, value};
use std::alloc::{AllocError, Global};

// The half that a value goes to.
#[derive(Clone, Copy, PartialEq, Eq)]
enum Side {
    Top,
    Bottom,
}

// The other one of v and v + k: associates among values, the two of a pair among places.
fn other(k: usize, v: usize) -> usize {
    if v < k { v.wrapping_add(k) } else { v - k }
}

// A value inside its half.
fn inner(k: usize, v: usize) -> usize {
    if v < k { v } else { v - k }
}

// Follows a ring from place c, where it is new: c goes to the top, the other place of its pair to the bottom, the place of that
// one's associate to the top, and so on.
fn ring(sides: &mut [Option<Side>], table: &[usize], home: &[usize], k: usize, c: usize) {
    let mut p = c;
    for _ in 0..k {
        if sides.get(p) != Some(&None) {
            return;
        }
        let q = other(k, p);
        put(sides, p, Some(Side::Top));
        put(sides, q, Some(Side::Bottom));
        p = value(home, other(k, value(table, q)));
    }
}

// The lower place of the last pair goes to the top, and in each ring without it that of the lowest pair.
fn find_sides(alloc: Global, table: &[usize], k: usize) -> Result<Vec<Option<Side>>, AllocError> {
    let home = find_homes(alloc, table)?;
    let mut sides = vec![in alloc; None; k.saturating_mul(2)]?;
    ring(&mut sides, table, &home, k, k.saturating_sub(1));
    for i in 0..k {
        ring(&mut sides, table, &home, k, i);
    }
    Ok(sides)
}

// Sets a network whose values are given, into all bits: deals out each pair, one value to the top, the other to the bottom, each
// inside its half; the pair's bit, where it has a switch; the output bit of the value that the top brings. The output bits are the
// network's last ones.
fn set_net(
    alloc: Global,
    net: Net,
    table: &mut [usize],
    bits: &mut [u8],
) -> Result<(), AllocError> {
    let k = usize::from(up(net.size));
    let h = usize::from(net.size / 2);
    let first = usize::from(net.bit);
    let last = (first + usize::from(net.bits)).wrapping_sub(h);
    let sides = find_sides(alloc, table, k)?;
    for i in 0..k {
        let (x, y) = (value(table, i), value(table, k + i));
        let crossed = sides.get(i) == Some(&Some(Side::Bottom));
        let (top, bottom) = if crossed { (y, x) } else { (x, y) };
        let bring = inner(k, top);
        put(table, i, bring);
        if bring < h {
            put(bits, last.wrapping_add(bring), u8::from(k <= top));
        }
        if i < h {
            put(table, k + i, inner(k, bottom));
        }
        if i + 1 < k {
            put(bits, first + i, u8::from(crossed));
        }
    }
    Ok(())
}

// The canonical setting of an order, into the first bits; those behind stay.
pub(crate) fn set(
    alloc: Global,
    order: &[u16],
    nets: &Nets,
    bits: &mut [u8],
) -> Result<(), AllocError> {
    let mut table: Vec<usize> = order
        .iter()
        .map(|place| usize::from(*place))
        .collect(alloc)?;
    for net in &nets.all {
        let start = usize::from(net.start);
        let end = start + usize::from(net.size);
        if let Some(part) = table.as_mut_slice().get_mut(start..end) {
            if 1 < net.size {
                set_net(alloc, *net, part, bits)?;
            }
        }
    }
    Ok(())
}
