// The lines that the programs print, put into a buffer. Each function puts bytes at a place of out, or at its front, and
// answers the place after them; each `requires` room for them. They are public for the crates of the programs' texts, which
// know how long a text gets. (out, at) stay two parameters: a writer that held both would have to say in each contract besides
// that it still holds the buffer that it was lent.
#![tactic(auto)]

ghost use Rattle.std.specs.Prelude.{◌≡◌, ◌++◌, ◌+◌, ◌≤◌, length};
ghost use Rattle.answers.specs.Buffers.{Put};
ghost use Rattle.cmd_text.specs.Text.{text, decimal, signed, character, bits_text, line, refusal_line};

use answers::Answer;

// The bytes as they are.
pub fn put_text(out: &mut [u8], at: usize, bytes: &[u8]) -> usize
    requires { at + length bytes.now ≤ length out.old }
    ensures { Put out.old at bytes.now result out.new }
{
    let end = at + bytes.len();
    out[at..end].copy_from_slice(bytes);
    end
}

// A number in decimal: the higher digits first, then the lowest.
pub fn put_decimal(out: &mut [u8], at: usize, v: usize) -> usize
    requires { at + length (decimal v) ≤ length out.old }
    ensures { Put out.old at (decimal v) result out.new }
{
    if v < 10 {
        out[at] = b'0' + v as u8;
        return at + 1;
    }
    let end = put_decimal(out, at, v / 10);
    out[end] = b'0' + (v % 10) as u8;
    end + 1
}

// A number in decimal, with its sign where it is below 0.
pub fn put_signed(out: &mut [u8], at: usize, z: i64) -> usize
    requires { at + length (signed z) ≤ length out.old }
    ensures { Put out.old at (signed z) result out.new }
{
    if z < 0 {
        let a = put_text(out, at, b"-");
        return put_decimal(out, a, z.unsigned_abs() as usize);
    }
    put_decimal(out, at, z.unsigned_abs() as usize)
}

// A bit as a digit.
pub fn bit_character(b: u8) -> u8
    ensures { result ≡ character b }
{
    if b == 1 { b'1' } else { b'0' }
}

// The bits in sequence, or `-` if none.
pub fn put_bits(out: &mut [u8], at: usize, bits: &[u8]) -> usize
    requires { at + length (bits_text bits.now) ≤ length out.old }
    ensures { Put out.old at (bits_text bits.now) result out.new }
{
    if bits.is_empty() {
        return put_text(out, at, b"-");
    }
    for (i, bit) in bits.iter().enumerate() {
        out[at + i] = bit_character(*bit);
    }
    at + bits.len()
}

// A line of a label and a number.
pub fn put_number(out: &mut [u8], at: usize, label: &[u8], v: usize) -> usize
    requires { at + length (label.now ++ (decimal v ++ text "\n")) ≤ length out.old }
    ensures { Put out.old at (label.now ++ (decimal v ++ text "\n")) result out.new }
{
    let a = put_text(out, at, label);
    let b = put_decimal(out, a, v);
    put_text(out, b, b"\n")
}

// A line of bits.
pub fn put_setting(out: &mut [u8], at: usize, bits: &[u8]) -> usize
    requires { at + length (line "setting " (bits_text bits.now)) ≤ length out.old }
    ensures { Put out.old at (line "setting " (bits_text bits.now)) result out.new }
{
    let a = put_text(out, at, b"setting ");
    let end = put_bits(out, a, bits);
    put_text(out, end, b"\n")
}

// The line of a refusal.
pub fn put_refusal(out: &mut [u8], refused: Answer) -> usize
    requires { length (refusal_line refused.number refused.place) ≤ length out.old }
    ensures { Put out.old 0 (refusal_line refused.number refused.place) result out.new }
{
    let a = put_text(out, 0, b"refused ");
    let b = put_decimal(out, a, refused.number);
    put_number(out, b, b" at ", refused.place)
}
