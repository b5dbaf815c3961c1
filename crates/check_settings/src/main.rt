// Runs `settings_text` on stored inputs: each refusal, small orders, and 1,024 places.
#![tactic(auto)]

ghost use Rattle.std.specs.Prelude.{◌+◌, ◌≤◌, ◌<◌, IfOk, vec_len};

use std::alloc::{AllocError, Global};
use std::io;
use std::io::Write;

// The text of an input.
fn show(rt: &impl Print, input: &[u8]) {
    let mut text = [0u8; 9252];
    let end = cmd_settings::settings_text(input, &mut text);
    let _ = io::writer(rt).write_all(&text[..end]);
}

const INPUTS: [&[u8]; 21] = [
    // No byte; a second byte missing, needless, with its top bit set; 1,025 and 16,383 places.
    b"",
    b"\x80",
    b"\x80\x00",
    b"\x80\x80",
    b"\x81\x08",
    b"\xff\x7f",
    // An entry missing, cut, longer than needed.
    b"\x02\x00",
    b"\x02\x00\x81",
    b"\x02\x00\x80\x00",
    // A surplus byte, also where the entries are bad.
    b"\x00\x00",
    b"\x02\x00\x00\x07",
    // An entry twice, one of two bytes that is too large, one of one byte.
    b"\x02\x00\x00",
    b"\x03\x00\x81\x01\x02",
    b"\x03\x00\x01\x03",
    // 0, 1, 2 (twice), 3 and 5 places, and case g.
    b"\x00",
    b"\x01\x00",
    b"\x02\x00\x01",
    b"\x02\x01\x00",
    b"\x03\x01\x02\x00",
    b"\x05\x00\x03\x02\x01\x04",
    b"\x09\x06\x02\x03\x07\x05\x01\x08\x00\x04",
];

// One number more, in one or two bytes.
fn push(input: &mut Vec<u8>, number: usize) -> Result<(), AllocError>
    requires { number < 16384 }
    ensures { IfOk result (λ _. (vec_len input.old < vec_len input.new) × (vec_len input.new ≤ vec_len input.old + 2)) }
{
    if number < 128 {
        input.push(number as u8)?;
    } else {
        input.push((number % 128 + 128) as u8)?;
        input.push((number / 128) as u8)?;
    }
    Ok(())
}

// The count 1,024 and its entries: v - 1 for v = b, and then each time a more, mod 1,025. Where a = b has no divisor in common
// with 1,025 they are a permutation.
fn large(alloc: Global, a: usize, b: usize) -> Result<Vec<u8>, AllocError>
    requires { (a ≤ 1024) × (b ≤ 1024) }
    ensures { IfOk result (λ input. (1 ≤ vec_len input) × (vec_len input ≤ 2050)) }
{
    let mut input = Vec::new(alloc);
    push(&mut input, 1024)?;
    let mut v = b;
    for i in 0..1024usize {
        push(&mut input, (v + 1024) % 1025)?;
        v = (v + a) % 1025;
    }
    Ok(input)
}

// 1,024 places: an order, a byte more and a byte less; entries that come again; the longest input, of entries in two bytes,
// and a byte more.
fn show_large(rt: &(impl Print + AllocGlobal)) -> Result<(), AllocError> {
    let mut order = large(rt.alloc(), 389, 389)?;
    show(rt, &order);
    order.push(0)?;
    show(rt, &order);
    order.pop();
    order.pop();
    show(rt, &order);
    show(rt, &large(rt.alloc(), 41, 41)?);
    let mut longest = large(rt.alloc(), 0, 1024)?;
    show(rt, &longest);
    longest.push(0)?;
    show(rt, &longest);
    Ok(())
}

fn main(rt: HostRuntime) -> io::Result<()> {
    for input in INPUTS {
        show(&rt, input);
    }
    show_large(&rt)?;
    Ok(())
}
