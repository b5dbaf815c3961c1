// One line of a picture, from its columns: a place's label, and the columns in their groups.
#![tactic(auto)]

ghost use Rattle.std.specs.Prelude.{◌≡◌, ◌++◌, ◌+◌, ◌≤◌, ◌<◌, length};
ghost use Rattle.counts.specs.Counts.{W};
ghost use Rattle.answers.specs.Buffers.{Put};
ghost use Rattle.cmd_text.specs.Text.{text};
ghost use Rattle.cmd_picture_line.specs.Line.{high_digit, label, group, groups, grouped};

// The columns in their groups, and a newline.
pub fn put_line(out: &mut [u8], at: usize, n: usize, columns: &[u8]) -> usize
    requires { (2 ≤ n) × (n ≤ 16) × (length columns.now ≡ W n)
        × (at + length (grouped n columns.now ++ text "\n") ≤ length out.old) }
    ensures { Put out.old at (grouped n columns.now ++ text "\n") result out.new }
{
    let k = n.div_ceil(2);
    let top = k - 1;
    let bottom = top + counts::switches(k);
    let output = bottom + counts::switches(n - k);
    let a = put_groups(out, at, top, bottom, output, columns);
    cmd_text::put_text(out, a, b"\n")
}

fn put_groups(out: &mut [u8], at: usize, a: usize, b: usize, c: usize, columns: &[u8]) -> usize
    requires { (a ≤ b) × (b ≤ c) × (c ≤ length columns.now) × (at + length (groups a b c columns.now) ≤ length out.old) }
    ensures { Put out.old at (groups a b c columns.now) result out.new }
{
    let top = put_group(out, at, &columns[..a]);
    let bottom = put_group(out, top, &columns[a..b]);
    let output = put_group(out, bottom, &columns[b..c]);
    cmd_text::put_text(out, output, &columns[c..])
}

fn put_group(out: &mut [u8], at: usize, columns: &[u8]) -> usize
    requires { at + length (group columns.now) ≤ length out.old }
    ensures { Put out.old at (group columns.now) result out.new }
{
    if columns.is_empty() {
        return at;
    }
    let end = cmd_text::put_text(out, at, columns);
    cmd_text::put_text(out, end, b" ")
}

// A place's number and a space: three bytes.
pub fn put_label(out: &mut [u8], at: usize, place: usize) -> usize
    requires { (place < 100) × (at + 3 ≤ length out.old) }
    ensures { Put out.old at (label place) result out.new }
{
    let text = [tens(place), b'0' + (place % 10) as u8, b' '];
    cmd_text::put_text(out, at, &text)
}

fn tens(place: usize) -> u8
    requires { place < 100 }
    ensures { result ≡ high_digit place }
{
    if place < 10 {
        b' '
    } else {
        b'0' + (place / 10) as u8
    }
}
