// The sheet of an order: what the program `sheet` does with what it read.
#![tactic(auto)]

ghost use Rattle.std.specs.Prelude.{◌≡◌};
ghost use Rattle.answers.specs.Answers.{answer_from};
ghost use Rattle.answers.specs.Outcomes.{outcome};
ghost use Rattle.cmd_sheet.specs.Calls.{sheet_call};

use answers::Refusal;

/// The sheet of the order that an input holds, over the front of out: 1,321 bytes are enough for each.
pub fn order_sheet(input: &[u8], out: &mut [u8; sheets::SHEET_ROOM]) -> Result<usize, Refusal>
    ensures { outcome (answer_from result) out.new ≡ sheet_call input.now out.old }
{
    let mut bits = [0u8; counts::MOST_SWITCHES];
    let set = cmd_read_order::order_setting(input, &mut bits)?;
    let w = counts::switches(set.places);
    sheet_writer::write_sheet(set.places, &bits[..w], out)
}
