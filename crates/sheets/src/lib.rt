// Sheets: a setting written in numbers of one or two bytes, and the calls that write and read it. Definitions and laws.
#![tactic(auto)]

ghost use Rattle.std.specs.Prelude.{◌≡◌, length, replicate};
ghost use Rattle.sheets.specs.Sheet.{sheet_room};

// Room for the longest sheet, which has 1,320 bytes, and a byte more, so that a surplus shows.
pub const SHEET_ROOM: usize = 1321;

// The numbers of the longest setting.
pub const MOST_FOURTEENS: usize = 659;

/// The size of a setting that was read: its places, and the switches of so many.
#[derive(Clone, Copy, Debug, PartialEq, Eq)]
pub struct SettingSize {
    pub places: usize,
    pub switches: usize,
}

// What a program reads a sheet into. So many bytes lose nothing (proofs/Cut).
pub fn input_buffer() -> [u8; SHEET_ROOM]
    ensures { (sheet_room ≡ length result) × (result ≡ replicate sheet_room 0) }
{
    [0; SHEET_ROOM]
}
