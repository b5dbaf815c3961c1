// Values that are written down for the neighbour wiring.
use answers::Refusal;
use std::alloc::{AllocError, Global};
use tally::Tally;
use wirings::Topology;

// ---- settings

// Orders and their settings: document 01's orders c to f; then (0,2,1,3,4), which has a ring in which it tells whether the lowest pair
// is straight or the highest: then it would have 10001010; and (0,3,2,1,4), which has none.
fn settings(alloc: Global, tally: &mut Tally) -> Result<(), AllocError> {
    let cases: [(&[u16], &[u8]); 6] = [
        (&[1, 0], &[1]),
        (&[1, 2, 0], &[1, 1, 0]),
        (&[1, 3, 0, 2], &[1, 1, 0, 0, 1]),
        (&[1, 2, 3, 4, 0], &[1, 1, 1, 1, 0, 0, 0, 0]),
        (&[0, 2, 1, 3, 4], &[0, 1, 0, 0, 0, 1, 0, 1]),
        (&[0, 3, 2, 1, 4], &[0, 0, 0, 0, 0, 1, 0, 0]),
    ];
    for (order, right) in cases {
        let mut bits = vec![in alloc; 7; right.len()]?;
        let mut log = [0; 224];
        let _ = control::control_bits_in(Topology::Neighbour, order, &mut bits, &mut log);
        tally.compare(&bits.as_slice(), &right);
    }
    Ok(())
}

// Document 01's order g, and its setting here and in the paper's wiring.
const ORDER: [u16; 9] = [6, 2, 3, 7, 5, 1, 8, 0, 4];

const SETTING: [u8; 21] = [
    0, 0, 1, 0, 1, 1, 1, 1, 1, 1, 1, 0, 0, 0, 1, 1, 0, 1, 1, 0, 0,
];

const PAPER: [u8; 21] = [
    0, 0, 0, 1, 0, 0, 0, 1, 1, 1, 1, 0, 1, 0, 1, 0, 1, 1, 1, 0, 0,
];

// The numbers of a network's entries of the kinds 5 and 6; its first place, how many places, and the position of its first bit.
const NETWORKS: [([usize; 2], [u16; 3]); 8] = [
    ([16, 55], [0, 9, 0]),
    ([27, 41], [0, 5, 4]),
    ([35, 38], [0, 3, 6]),
    ([36, 37], [0, 2, 7]),
    ([39, 40], [2, 2, 9]),
    ([49, 54], [1, 4, 12]),
    ([50, 51], [1, 2, 13]),
    ([52, 53], [3, 2, 14]),
];

fn has_networks(log: &[[u16; 4]]) -> bool {
    NETWORKS.iter().all(|([split, outputs], [o, m, bit])| {
        log.get(*split) == Some(&[5, *o, *m, *bit]) && log.get(*outputs) == Some(&[6, *o, *m, *bit])
    })
}

fn nine(tally: &mut Tally) {
    let mut bits = [7; 21];
    let mut log = [[0; 4]; 56];
    let answer = control::control_bits_in(
        Topology::Neighbour,
        &ORDER,
        &mut bits,
        log.as_flattened_mut(),
    );
    tally.count(tally::answered(answer, 0, 0, 56));
    tally.compare(&bits, &SETTING);
    tally.count(has_networks(&log));
}

fn conversions(tally: &mut Tally) {
    let cases = [
        (Topology::Paper, PAPER, SETTING),
        (Topology::Neighbour, SETTING, PAPER),
    ];
    for (from, given, right) in cases {
        let mut out = [7; 21];
        let answer = convert::convert(from, 9, &given, &mut out);
        tally.count(tally::answered(answer, 0, 0, 0));
        tally.compare(&out, &right);
    }
}

// ---- mixing by g's setting; the logs of three blocks and of four

fn mixed(tally: &mut Tally) {
    let mut blocks = *b"abcdefghi";
    let mut log = [0; 84];
    let _ = apply::apply_in(Topology::Neighbour, 9, 1, &mut blocks, &SETTING, &mut log);
    tally.compare(&blocks, b"hfbcieadg");
    let _ = apply::apply_inverse_in(Topology::Neighbour, 9, 1, &mut blocks, &SETTING, &mut log);
    tally.compare(&blocks, b"abcdefghi");
}

// What a call logs of n blocks of one byte, under bits that are 1.
fn logged<F>(
    alloc: Global,
    tally: &mut Tally,
    call: F,
    n: usize,
    right: &[[u16; 4]],
) -> Result<(), AllocError>
where
    F: Fn(Topology, usize, usize, &mut [u8], &[u8], &mut [u16]) -> Result<usize, Refusal>,
    requires { F.IsAlwaysCallable call }
{
    let mut blocks = vec![in alloc; 1; n]?;
    let bits = vec![in alloc; 1; right.len()]?;
    let mut log = vec![in alloc; [0; 4]; right.len()]?;
    let answer = call(
        Topology::Neighbour,
        n,
        1,
        &mut blocks,
        &bits,
        log.as_flattened_mut(),
    );
    tally.count(tally::answered(answer, 0, 0, right.len()));
    tally.compare(&log.as_slice(), &right);
    Ok(())
}

// Returned, the switches come last to first, each with its own position.
fn logs(alloc: Global, tally: &mut Tally) -> Result<(), AllocError> {
    let three = [[7, 0, 1, 0], [7, 0, 2, 1], [7, 0, 1, 2]];
    let back = [[7, 0, 1, 2], [7, 0, 2, 1], [7, 0, 1, 0]];
    let four = [
        [7, 0, 1, 0],
        [7, 0, 2, 1],
        [7, 1, 3, 2],
        [7, 0, 1, 3],
        [7, 2, 3, 4],
    ];
    logged(alloc, tally, apply::apply_in, 3, &three)?;
    logged(alloc, tally, apply::apply_inverse_in, 3, &back)?;
    logged(alloc, tally, apply::apply_in, 4, &four)
}

pub(crate) fn all(alloc: Global) -> Result<Tally, AllocError> {
    let mut tally = Tally::new();
    settings(alloc, &mut tally)?;
    conversions(&mut tally);
    nine(&mut tally);
    mixed(&mut tally);
    logs(alloc, &mut tally)?;
    Ok(tally)
}
