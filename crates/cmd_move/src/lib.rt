// Blocks moved under the setting of a sheet: what the programs `mix` and `unmix` do with what they read.
#![tactic(auto)]

ghost use Rattle.std.specs.Prelude.{◌≡◌, length, replicate};
ghost use Rattle.answers.specs.Answers.{answer_from};
ghost use Rattle.answers.specs.Outcomes.{outcome};
ghost use Rattle.cmd_move.specs.Calls.{blocks_room, mix_call, unmix_call};

use answers::Refusal;

// Room for the most blocks, which have 262,144 bytes, and a byte more, so that a surplus shows.
pub const BLOCKS_ROOM: usize = 262145;

// What a program reads blocks into. So many bytes lose nothing (proofs/Cut, `blocks-cut`).
pub fn blocks_buffer() -> [u8; BLOCKS_ROOM]
    ensures { (blocks_room ≡ length result) × (result ≡ replicate blocks_room 0) }
{
    [0; BLOCKS_ROOM]
}

// The two directions share `read_setting`; what is left of each is one call. A function that took the call would have to promise
// whatever that call promises.

/// Forward (01: mix). The sheet is asked first, and then the blocks; nothing is written before.
pub fn mix(sheet: &[u8], width: usize, blocks: &mut [u8]) -> Result<usize, Refusal>
    ensures { outcome (answer_from result) blocks.new ≡ mix_call sheet.now width blocks.old }
{
    let mut bits = [0u8; counts::MOST_SWITCHES];
    let setting = sheet_reader::read_setting(sheet, &mut bits)?;
    let mut log = [0u16; entry_log::MOST_MOVE_WORDS];
    apply::apply(
        setting.places,
        width,
        blocks,
        &bits[..setting.switches],
        &mut log,
    )
}

/// Backward (01: return).
pub fn unmix(sheet: &[u8], width: usize, blocks: &mut [u8]) -> Result<usize, Refusal>
    ensures { outcome (answer_from result) blocks.new ≡ unmix_call sheet.now width blocks.old }
{
    let mut bits = [0u8; counts::MOST_SWITCHES];
    let setting = sheet_reader::read_setting(sheet, &mut bits)?;
    let mut log = [0u16; entry_log::MOST_MOVE_WORDS];
    apply::apply_inverse(
        setting.places,
        width,
        blocks,
        &bits[..setting.switches],
        &mut log,
    )
}
