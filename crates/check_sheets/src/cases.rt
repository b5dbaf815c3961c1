// The refusals, each with its number and place written out, and document 01's cases m and n.
use check_cases::BEHIND;
use std::alloc::{AllocError, Global};
use tally::Tally;

// A sheet, the room for its bits, and the number and place of the refusal.
const NO_SHEETS: [(&[u8], usize, usize, usize); 23] = [
    // 8, 9 and 10 at the form.
    (&[], 24, 8, 0),
    (&[0x81], 24, 8, 1),
    (&[0x81, 0], 24, 9, 0),
    (&[0x81, 0x80, 1], 24, 9, 0),
    (&[2, 0], 24, 10, 0),
    // 8, 9 and 1 at n.
    (&[1], 24, 8, 1),
    (&[1, 0x83], 24, 8, 2),
    (&[1, 0x83, 0, 6], 24, 9, 1),
    (&[1, 0x83, 0x80, 1], 24, 9, 1),
    (&[1, 0x81, 8], 24, 1, 0),
    // 4: a byte too few for 3 places, and for 9.
    (&[1, 3, 6], 2, 4, 0),
    (&[1, 9, 0x88, 0x2F, 0x1D], 20, 4, 0),
    // 8 at the numbers.
    (&[1, 3], 24, 8, 2),
    (&[1, 3, 0x86], 24, 8, 3),
    (&[1, 9, 0x88, 0x2F], 24, 8, 4),
    // 9 at the numbers: the first is case m.
    (&[1, 3, 0x86, 0], 24, 9, 2),
    (&[1, 3, 0x86, 0x80, 0], 24, 9, 2),
    (&[1, 9, 0x88, 0x2F, 0x9D, 0], 24, 9, 4),
    // 11, also where bytes are left over, and 12: the fourth is case n.
    (&[1, 3, 0x0E], 24, 11, 2),
    (&[1, 3, 0x0E, 0], 24, 11, 2),
    (&[1, 9, 0x88, 0x2F, 0x9D, 1], 24, 11, 4),
    (&[1, 0, 0], 24, 12, 2),
    (&[1, 3, 6, 0], 24, 12, 3),
];

// How many places, their setting, the room for its sheet, and the number and place of the refusal.
const NO_SETTINGS: [(usize, &[u8], usize, usize, usize); 8] = [
    // 1 and 4.
    (1025, &[], 8, 1, 0),
    (3, &[0, 1], 8, 4, 0),
    (3, &[0, 1, 1, 0], 8, 4, 0),
    // 7 and 13.
    (3, &[0, 1, 2], 8, 7, 2),
    (3, &[0, 255, 2], 8, 7, 1),
    (2, &[2], 0, 7, 0),
    (3, &[0, 1, 1], 2, 13, 0),
    (0, &[], 0, 13, 0),
];

// Refused so, and no byte is written.
pub(crate) fn refusals(alloc: Global) -> Result<Tally, AllocError> {
    let mut tally = Tally::new();
    for (sheet, room, number, place) in NO_SHEETS {
        let mut bits = vec![in alloc; 7u8; room.saturating_add(BEHIND)]?;
        let read = sheet_reader::read_sheet(sheet, crate::front(&mut bits));
        tally.count(tally::refused(read, number, place));
        tally.count(bits.iter().all(|bit| *bit == 7));
    }
    for (n, bits, room, number, place) in NO_SETTINGS {
        let mut out = vec![in alloc; 7u8; room.saturating_add(BEHIND)]?;
        let written = sheet_writer::write_sheet(n, bits, crate::front(&mut out));
        tally.count(tally::refused(written, number, place));
        tally.count(out.iter().all(|byte| *byte == 7));
    }
    Ok(tally)
}
