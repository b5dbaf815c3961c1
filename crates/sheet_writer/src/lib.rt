// The writer of sheets. A sheet's length depends on its bits (01), and with it branches of the functions that write its
// numbers. In `write_sheet` nothing depends on the bits before question 7 is decided.
#![tactic(auto)]

ghost use Rattle.std.specs.Prelude.{◌≡◌, ◌≤◌, length, take};
ghost use Rattle.answers.specs.Answers.{answer_from};
ghost use Rattle.answers.specs.Buffers.{Put};
ghost use Rattle.answers.specs.Outcomes.{outcome};
ghost use Rattle.bits.specs.Bits.{Bits};
ghost use Rattle.sheets.specs.Sheet.{bits_number, numbers_for, fourteens, sheet};
ghost use Rattle.sheets.specs.Calls.{write_sheet};

use answers::{Reason, Refusal};

/// 01: write sheet. The sheet is made aside, so that a refusal leaves the output alone.
pub fn write_sheet(n: usize, bits: &[u8], out: &mut [u8]) -> Result<usize, Refusal>
    ensures { outcome (answer_from result) out.new ≡ write_sheet n bits.now out.old }
{
    if counts::MOST_PLACES < n {
        return Err(Refusal::of(Reason::Places));
    }
    if bits.len() != counts::switches(n) {
        return Err(Refusal::of(Reason::BitCount));
    }
    let bad = bits::first_bad_bit(bits);
    if bad != bits.len() {
        return Err(Refusal::at(Reason::BitByte, bad));
    }
    let mut made = [0u8; sheets::SHEET_ROOM];
    let end = make_sheet(n, bits, &mut made);
    if out.len() < end {
        return Err(Refusal::of(Reason::OutputRoom));
    }
    out[..end].copy_from_slice(&made[..end]);
    Ok(end)
}

// The sheet, over the front of buf: 1,321 bytes are enough for each. The answer is its length.
fn make_sheet(n: usize, bits: &[u8], buf: &mut [u8; sheets::SHEET_ROOM]) -> usize
    requires { (n ≤ 1024) × (length bits.now ≤ 9217) × Bits bits.now }
    ensures { Put buf.old 0 (sheet n bits.now) result buf.new }
{
    let mut row = [0u16; sheets::MOST_FOURTEENS];
    let k = bits.len().div_ceil(14);
    gather(bits, &mut row[..k]);
    let a = numbers::put_number(buf, 0, 1);
    let b = numbers::put_number(buf, a, n);
    rows::put_row(&row[..k], buf, b)
}

// The numbers of the fourteens of bits.
fn gather(bits: &[u8], row: &mut [u16])
    requires { (length row.old ≡ numbers_for (length bits.now)) × Bits bits.now }
    ensures { row.new ≡ fourteens (length row.old) bits.now }
{
    for (j, number) in row.iter_mut().enumerate() {
        let from = j * 14;
        let end = bits.len().min(from + 14);
        *number = fourteen(&bits[from..end]);
    }
}

// The number of at most fourteen bits: the last, which is the highest, goes in first.
fn fourteen(bits: &[u8]) -> u16
    requires { (length bits.now ≤ 14) × Bits bits.now }
    ensures { result ≡ bits_number bits.now }
{
    let mut number = 0;
    for bit in bits.iter().rev() {
        number = number * 2 + u16::from(*bit);
    }
    number
}
