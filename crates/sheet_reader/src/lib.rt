// The reader of sheets. How many bytes a sheet has depends on its bits (01), and with it branches of the functions here.
#![tactic(auto)]

ghost use Rattle.std.specs.Prelude.{◌≡◌, ◌≤◌, length, take, drop};
ghost use Rattle.answers.specs.Answers.{answer_from};
ghost use Rattle.answers.specs.Questions.{first_no};
ghost use Rattle.answers.specs.Buffers.{overlay};
ghost use Rattle.answers.specs.Outcomes.{outcome};
ghost use Rattle.numbers.specs.Numbers.{sevens};
ghost use Rattle.numbers.specs.Reading.{ReadAs};
ghost use Rattle.rows.specs.Rows.{numbers_at, Row, Fourteens};
ghost use Rattle.sheets.specs.Sheet.{numbers_for};
ghost use Rattle.sheets.specs.Reading.{bits_in, all_zero};
ghost use Rattle.sheets.specs.Calls.{read_sheet, head_in, head_questions, body_questions, setting_outcome, read_setting};

use answers::{Reason, Refusal};
use numbers::Number;
use sheets::SettingSize;

/// 01: read sheet. All is asked, into a row of numbers aside, before a bit is written.
pub fn read_sheet(input: &[u8], bits: &mut [u8]) -> Result<usize, Refusal>
    ensures { outcome (answer_from result) bits.new ≡ read_sheet input.now bits.old }
{
    let head = read_head(input, bits.len())?;
    let w = counts::switches(head.value);
    let mut values = [0u16; sheets::MOST_FOURTEENS];
    let k = read_body(input, w, head.next, &mut values)?;
    write_bits(&values[..k], w, bits);
    Ok(head.value)
}

/// The setting of a sheet, over the front of bits, which have room for each. Public for the crates that do something with a
/// setting.
// Kept apart: inlined into mix and unmix, the row of numbers would stand beside the log on their stack.
#[inline(never)]
pub fn read_setting(
    sheet: &[u8],
    bits: &mut [u8; counts::MOST_SWITCHES],
) -> Result<SettingSize, Refusal>
    ensures { setting_outcome result bits.new ≡ read_setting sheet.now bits.old }
{
    let places = read_sheet(sheet, bits)?;
    let switches = counts::switches(places);
    Ok(SettingSize { places, switches })
}

// The form, n, and whether there is room for the bits: n with the place after it. Here `let else` stands where `?` would do:
// 01 names this form, that a number read is taken apart and its refusal returned.
fn read_head(input: &[u8], room: usize) -> Result<Number, Refusal>
    ensures { ReadAs (first_no (head_questions input.now room)) (head_in input.now) result }
{
    let read = numbers::read_number(input, 0);
    let Ok(form) = read else {
        return read;
    };
    if form.value != 1 {
        return Err(Refusal::of(Reason::FormNumber));
    }
    let read = numbers::read_number(input, form.next);
    let Ok(places) = read else {
        return read;
    };
    let n = places.value;
    if counts::MOST_PLACES < n {
        return Err(Refusal::of(Reason::Places));
    }
    if room < counts::switches(n) {
        return Err(Refusal::of(Reason::BitCount));
    }
    Ok(places)
}

// The numbers of w bits, their fill bits, and whether the input ends there: how many numbers there are. They go to the front
// of values.
fn read_body(
    input: &[u8],
    w: usize,
    at: usize,
    values: &mut [u16; sheets::MOST_FOURTEENS],
) -> Result<usize, Refusal>
    requires { w ≤ 9217 }
    ensures { Row (body_questions input.now w at) (numbers_for w)
        (numbers_for w) (numbers_at sevens (numbers_for w) input.now at) values.new result }
{
    let k = w.div_ceil(14);
    let end = rows::read_row(input, at, k, values)?;
    if !filled(&values[..k], w) {
        return Err(Refusal::at(Reason::FillBits, end.last));
    }
    if end.next < input.len() {
        return Err(Refusal::at(Reason::InputEnd, end.next));
    }
    Ok(k)
}

// Whether the bits of the numbers past the first w are 0: they are the highest of the last number.
fn filled(values: &[u16], w: usize) -> bool
    requires { (length values.now ≡ numbers_for w) × (w ≤ 9217) × Fourteens values.now }
    ensures { result ≡ all_zero (drop w (bits_in values.now)) }
{
    let Some(last) = values.last() else {
        return true;
    };
    let own = w - 14 * (values.len() - 1);
    usize::from(*last) >> own == 0
}

// The first w bits of the numbers, over the front of bits.
fn write_bits(values: &[u16], w: usize, bits: &mut [u8])
    requires { (w ≤ length bits.old) × (numbers_for w ≤ length values.now) × (w ≤ 9217) }
    ensures { bits.new ≡ overlay bits.old 0 (take w (bits_in values.now)) }
{
    for (i, bit) in bits[..w].iter_mut().enumerate() {
        let v = usize::from(values[i / 14]);
        let shift = i % 14;
        *bit = ((v >> shift) % 2) as u8;
    }
}
