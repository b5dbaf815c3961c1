// A second setter for the neighbour wiring, by another way: the pairs of a network are coloured, straight or crossed, ring by ring, and an
// output bit is read off the value that the top half has to bring. No trail, no marks, no sweeps; the networks come from a list. The
// associate of the value v is v ^ 1, and so is the other place of a pair.
use crate::lists::{Kind, Layers, Net};
use check_cases::{find_homes, put, value};
use std::alloc::{AllocError, Global};

#[derive(Clone, Copy, PartialEq, Eq)]
enum Colour {
    Straight,
    Crossed,
}

// ---- the colours

// The colour of a pair that is linked to a coloured one: the same where the associates lie on different sides.
fn linked(colour: Colour, same_side: bool) -> Colour {
    match (colour, same_side) {
        (Colour::Straight, true) => Colour::Crossed,
        (Colour::Crossed, true) => Colour::Straight,
        (_, false) => colour,
    }
}

// The ring of pair i among the pairs, where that has no colour: straight itself, and then the others one by one. From place p of a
// coloured pair one comes to the pair of its value's associate, at s, and goes on from that pair's other place.
fn ring(colours: &mut [Option<Colour>], row: &[usize], home: &[usize], i: usize) {
    if colours.get(i) != Some(&None) {
        return;
    }
    put(colours, i, Some(Colour::Straight));
    let mut colour = Colour::Straight;
    let mut p = i.wrapping_mul(2) | 1;
    for _ in 0..colours.len() {
        let s = value(home, value(row, p) ^ 1);
        colour = linked(colour, s % 2 == p % 2);
        match colours.get(s / 2).copied().flatten() {
            Some(known) => colour = known,
            None => put(colours, s / 2, Some(colour)),
        }
        p = s ^ 1;
    }
}

// The last pair has no switch, and so is straight; in each ring without it the lowest pair is.
fn find_colours(
    alloc: Global,
    row: &[usize],
    pairs: usize,
) -> Result<Vec<Option<Colour>>, AllocError> {
    let home = find_homes(alloc, row)?;
    let mut colours = vec![in alloc; None; pairs]?;
    ring(&mut colours, row, &home, pairs.saturating_sub(1));
    for i in 0..pairs {
        ring(&mut colours, row, &home, i);
    }
    Ok(colours)
}

// ---- the setting

// The bits that each pair decides: its own, where it has a switch, and that of the output switch which gets the value that the top half
// brings. The pair is dealt out: one value to the top half and one to the bottom half, each counted inside its half. For odd m, place m
// is imagined and holds value m; it is no place of the table.
fn set_net(
    alloc: Global,
    net: Net,
    table: &mut [usize],
    bits: &mut [u8],
) -> Result<(), AllocError> {
    let pairs = net.pairs();
    let half = usize::from(net.size / 2);
    let row: Vec<usize> = (0..net.size)
        .map(|i| value(table, usize::from(net.place(i))))
        .collect(alloc)?;
    let colours = find_colours(alloc, &row, usize::from(pairs))?;
    for i in 0..pairs {
        let pair = usize::from(i);
        let crossed = colours.get(pair) == Some(&Some(Colour::Crossed));
        let x = pair * 2 + usize::from(crossed);
        let (top, bottom) = (value(&row, x), value(&row, x ^ 1));
        if pair + 1 < usize::from(pairs) {
            put(bits, usize::from(net.first) + pair, u8::from(crossed));
        }
        if top / 2 < half {
            put(
                bits,
                usize::from(net.last) + top / 2,
                u8::from(top % 2 == 1),
            );
        }
        let lower = i.wrapping_mul(2);
        put(table, usize::from(net.place(lower)), top / 2);
        if pair < half {
            put(
                table,
                usize::from(net.place(lower.wrapping_add(1))),
                bottom / 2,
            );
        }
    }
    Ok(())
}

// The canonical setting of an order.
pub(crate) fn set(alloc: Global, layers: &Layers, order: &[u16]) -> Result<Vec<u8>, AllocError> {
    let mut bits = vec![in alloc; 7; usize::from(layers.switches)]?;
    let mut table: Vec<usize> = order
        .iter()
        .map(|place| usize::from(*place))
        .collect(alloc)?;
    for layer in &layers.all {
        if layer.kind == Kind::Inputs {
            set_net(alloc, layer.net, &mut table, &mut bits)?;
        }
    }
    Ok(bits)
}
