// The text that the program `settings` prints, as a function on slices.
#![tactic(auto)]

ghost use Rattle.std.specs.Prelude.{◌≡◌, ◌≤◌, length};
ghost use Rattle.answers.specs.Buffers.{Put};
ghost use Rattle.cmd_text.specs.Written.{written};
ghost use Rattle.cmd_settings.specs.Settings.{setting_lines, settings_call};

// The three lines of an accepted input, over the front of out.
fn put_lines(out: &mut [u8], n: usize, bits: &[u8], entries: usize) -> usize
    requires { length (setting_lines n bits.now entries) ≤ length out.old }
    ensures { Put out.old 0 (setting_lines n bits.now entries) result out.new }
{
    let a = cmd_text::put_number(out, 0, b"places ", n);
    let b = cmd_text::put_setting(out, a, bits);
    cmd_text::put_number(out, b, b"entries ", entries)
}

// What `settings` prints for an input, over the front of out, and its length. The longest text is that of 1,024 places.
pub fn settings_text(input: &[u8], out: &mut [u8; 9252]) -> usize
    ensures { written result out.new ≡ settings_call input.now out.old }
{
    let mut bits = [0u8; counts::MOST_SWITCHES];
    match cmd_read_order::order_setting(input, &mut bits) {
        Ok(set) => {
            let w = counts::switches(set.places);
            put_lines(out, set.places, &bits[..w], set.entries)
        }
        Err(refused) => cmd_text::put_refusal(out, Err(refused).into()),
    }
}
