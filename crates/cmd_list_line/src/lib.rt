// A line of the program `list`, put into a buffer: `put_line` is public for the crate of the whole text, which knows how long a line
// gets, and so `requires` room.
#![tactic(auto)]

ghost use Rattle.std.specs.Prelude.{◌+◌, ◌≤◌, length};
ghost use Rattle.answers.specs.Buffers.{Put};
ghost use Rattle.cmd_list_line.specs.Line.{entries_text, line_of};

// The line of an order and its setting.
pub fn put_line(out: &mut [u8], at: usize, order: &[u16], bits: &[u8]) -> usize
    requires { at + length (line_of order.now bits.now) ≤ length out.old }
    ensures { Put out.old at (line_of order.now bits.now) result out.new }
{
    let a = put_entries(out, at, order);
    let b = cmd_text::put_text(out, a, b" ");
    let c = cmd_text::put_bits(out, b, bits);
    cmd_text::put_text(out, c, b"\n")
}

// Entries in decimal, parted by commas.
fn put_entries(out: &mut [u8], at: usize, entries: &[u16]) -> usize
    requires { at + length (entries_text entries.now) ≤ length out.old }
    ensures { Put out.old at (entries_text entries.now) result out.new }
{
    let [first, rest @ ..] = entries else {
        return at;
    };
    let mut end = cmd_text::put_decimal(out, at, usize::from(*first));
    for entry in rest {
        let a = cmd_text::put_text(out, end, b",");
        end = cmd_text::put_decimal(out, a, usize::from(*entry));
    }
    end
}
