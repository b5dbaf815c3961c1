// What a sheet does, as text: what the program `show` does with what it read.
#![tactic(auto)]

ghost use Rattle.std.specs.Prelude.{◌≡◌, ℕ, ◌++◌, ◌+◌, ◌*◌, ◌≤◌, ◌<◌, length, slice_index};
ghost use Rattle.answers.specs.Answers.{answer_from};
ghost use Rattle.answers.specs.Outcomes.{outcome};
ghost use Rattle.counts.specs.Counts.{W};
ghost use Rattle.network.specs.Wiring.{paper};
ghost use Rattle.network.specs.Blocks.{order_of};
ghost use Rattle.answers.specs.Buffers.{Put};
ghost use Rattle.cmd_text.specs.Text.{text, decimal, line};
ghost use Rattle.cmd_show.specs.Show.{spaced, order_text, pictured, setting_text, show_call};

use answers::Refusal;
use cmd_picture::Small;

// The places of the largest network that a picture shows.
const MOST_PICTURED: usize = 16;

// A setting that was read from a sheet: a bit for each switch.
#[derive(Clone, Copy)]
struct Setting<'a> {
    places: usize,
    bits: &'a [u8],
    ghost few: { places ≤ 1024 },
    ghost short: { W places ≤ 9217 },
    ghost long: { length bits.now ≡ W places },
    ghost binary: { (i : ℕ) → slice_index bits.now i < 2 },
}

/// The text over the front of out: 16,384 bytes are enough for each sheet.
pub fn show_sheet(sheet: &[u8], out: &mut [u8; 16384]) -> Result<usize, Refusal>
    ensures { outcome (answer_from result) out.new ≡ show_call sheet.now out.old }
{
    let mut bits = [0u8; counts::MOST_SWITCHES];
    let size = sheet_reader::read_setting(sheet, &mut bits)?;
    let setting = Setting {
        places: size.places,
        bits: &bits[..size.switches],
    };
    Ok(put_setting(out, &setting))
}

fn put_setting(out: &mut [u8; 16384], setting: &Setting<'_>) -> usize
    ensures { Put out.old 0 (setting_text setting.now.places setting.now.bits.now) result out.new }
{
    let a = cmd_text::put_number(out, 0, b"places ", setting.places);
    let b = cmd_text::put_setting(out, a, setting.bits);
    put_rest(out, b, setting)
}

// The order and the picture: 6,152 and 952 bytes are enough.
fn put_rest(out: &mut [u8], at: usize, setting: &Setting<'_>) -> usize
    requires { at + 7104 ≤ length out.old }
    ensures { Put out.old at (line "order" (order_text (order_of paper setting.now.places setting.now.bits.now))
        ++ pictured setting.now.places setting.now.bits.now) result out.new }
{
    let mut order = [0u16; 1024];
    setting_order::order_of_setting(setting.places, setting.bits, &mut order);
    let a = put_order(out, at, &order[..setting.places]);
    put_pictured(out, a, setting)
}

fn put_pictured(out: &mut [u8], at: usize, setting: &Setting<'_>) -> usize
    requires { at + 952 ≤ length out.old }
    ensures { Put out.old at (pictured setting.now.places setting.now.bits.now) result out.new }
{
    if setting.places < 2 || MOST_PICTURED < setting.places {
        return at;
    }
    let small = Small {
        places: setting.places,
        bits: setting.bits,
    };
    cmd_picture::put_picture(out, at, &small)
}

// The line of an order: an entry takes six bytes at most.
fn put_order(out: &mut [u8], at: usize, order: &[u16]) -> usize
    requires { at + 8 + 6 * length order.now ≤ length out.old }
    ensures { Put out.old at (line "order" (order_text order.now)) result out.new
        × (result ≤ at + 8 + 6 * length order.now) }
{
    let a = cmd_text::put_text(out, at, b"order");
    let b = put_order_text(out, a, order);
    cmd_text::put_text(out, b, b"\n")
}

fn put_order_text(out: &mut [u8], at: usize, order: &[u16]) -> usize
    requires { at + 2 + 6 * length order.now ≤ length out.old }
    ensures { Put out.old at (order_text order.now) result out.new
        × (result ≤ at + 2 + 6 * length order.now) }
{
    if order.is_empty() {
        return cmd_text::put_text(out, at, b" -");
    }
    let mut end = at;
    for entry in order {
        end = put_entry(out, end, *entry);
    }
    end
}

fn put_entry(out: &mut [u8], at: usize, v: u16) -> usize
    requires { at + 6 ≤ length out.old }
    ensures { Put out.old at (text " " ++ decimal v) result out.new × (result ≤ at + 6) }
{
    let a = cmd_text::put_text(out, at, b" ");
    cmd_text::put_decimal(out, a, usize::from(v))
}
