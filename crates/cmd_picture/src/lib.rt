// The network of a few places under a setting, as text.
#![tactic(auto)]

ghost use Rattle.std.specs.Prelude.{◌≡◌, ℕ, ◌+◌, ◌*◌, ◌≤◌, ◌<◌, length, slice_index};
ghost use Rattle.counts.specs.Counts.{W};
ghost use Rattle.answers.specs.Buffers.{Put};
ghost use Rattle.network.specs.Log.{entry_words};
ghost use Rattle.cmd_picture.specs.Picture.{mark, heading, picture};
ghost use Rattle.cmd_picture.specs.Inner.{columns_in, row_in, rows_in};

/// A setting of a network that is small enough for a picture and has a switch: a bit for each switch.
#[derive(Clone, Copy)]
pub struct Small<'a> {
    pub places: usize,
    pub bits: &'a [u8],
    pub ghost some: { 2 ≤ places },
    pub ghost few: { places ≤ 16 },
    pub ghost long: { length bits.now ≡ W places },
    pub ghost binary: { (i : ℕ) → slice_index bits.now i < 2 },
}

/// The picture, at a place of out; the answer is the place after it. Public for the crate that shows a sheet, which has read
/// the setting and knows how long the text gets. The switches are those that a mixing logs.
pub fn put_picture(out: &mut [u8], at: usize, setting: &Small<'_>) -> usize
    requires { at + length (picture setting.now.places setting.now.bits.now) ≤ length out.old }
    ensures { Put out.old at (picture setting.now.places setting.now.bits.now) result out.new }
{
    let n = setting.places;
    let mut blocks = [0u8; 16];
    let mut log = [0u16; entry_log::ENTRY_WORDS * 49];
    let _ = apply::apply(n, 1, &mut blocks[..n], setting.bits, &mut log);
    let a = put_heading(out, at, setting);
    put_rows(out, a, setting, &log)
}

fn put_heading(out: &mut [u8], at: usize, setting: &Small<'_>) -> usize
    requires { at + length (heading setting.now.places setting.now.bits.now) ≤ length out.old }
    ensures { Put out.old at (heading setting.now.places setting.now.bits.now) result out.new }
{
    let mut columns = [0u8; 49];
    let w = cmd_text::put_bits(&mut columns, 0, setting.bits);
    let a = cmd_text::put_text(out, at, b"   ");
    cmd_picture_line::put_line(out, a, setting.places, &columns[..w])
}

fn put_rows(out: &mut [u8], at: usize, setting: &Small<'_>, log: &[u16]) -> usize
    requires { (entry_words * length setting.now.bits.now ≤ length log.now)
        × (at + length (rows_in setting.now.places log.now setting.now.bits.now setting.now.places) ≤ length out.old) }
    ensures { Put out.old at (rows_in setting.now.places log.now setting.now.bits.now setting.now.places) result out.new }
{
    let mut end = at;
    for place in 0..setting.places {
        end = put_row(out, end, setting, place, log);
    }
    end
}

fn put_row(out: &mut [u8], at: usize, setting: &Small<'_>, place: usize, log: &[u16]) -> usize
    requires { (place < 100) × (entry_words * length setting.now.bits.now ≤ length log.now)
        × (at + length (row_in setting.now.places log.now setting.now.bits.now place) ≤ length out.old) }
    ensures { Put out.old at (row_in setting.now.places log.now setting.now.bits.now place) result out.new }
{
    let mut columns = [0u8; 49];
    let w = put_columns(&mut columns, 0, place, setting.bits, log);
    let a = cmd_picture_line::put_label(out, at, place);
    cmd_picture_line::put_line(out, a, setting.places, &columns[..w])
}

fn put_columns(out: &mut [u8], at: usize, place: usize, bits: &[u8], log: &[u16]) -> usize
    requires { (entry_words * length bits.now ≤ length log.now)
        × (at + length (columns_in log.now bits.now place) ≤ length out.old) }
    ensures { Put out.old at (columns_in log.now bits.now place) result out.new }
{
    for (e, bit) in bits.iter().enumerate() {
        let lower = entry_log::first_of(log, e);
        let upper = entry_log::second_of(log, e);
        out[at + e] = mark_at(lower, upper, *bit, place);
    }
    at + bits.len()
}

fn mark_at(lower: usize, upper: usize, bit: u8, place: usize) -> u8
    ensures { result ≡ mark lower upper bit place }
{
    if place == lower || place == upper {
        cmd_text::bit_character(bit)
    } else if lower < place && place < upper {
        b'|'
    } else {
        b'-'
    }
}
