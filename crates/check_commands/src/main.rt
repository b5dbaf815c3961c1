// The whole job through the calls of the programs: an order from words, its sheet, blocks mixed and put back. The mixed blocks
// are compared with a direct scatter by the order, and those put back with the blocks at the start. Then each refusal, and orders
// drawn from chosen words.
#![tactic(auto)]

mod plain;

ghost use Rattle.std.specs.Prelude.{◌<◌};

use answers::Refusal;
use std::alloc::{AllocError, Global};
use std::io;
use tally::Tally;

// What a call wrote to the front of a buffer.
fn written(buffer: &[u8], given: Result<usize, Refusal>) -> &[u8] {
    let count = given.unwrap_or(0);
    &buffer[..count.min(buffer.len())]
}

// Whether a refused call left a buffer full of 7s as it was.
fn kept(buffer: &[u8]) -> bool {
    buffer.iter().all(|byte| *byte == 7)
}

// ---- the job

fn job(alloc: Global, n: usize, width: usize, seed: u32) -> Result<Tally, AllocError>
    requires { 0 < width }
{
    let mut tally = Tally::new();

    // for 1,024 places just enough, for fewer the 64 words to spare too
    let count = cmd_draw::bytes_for(n).min(4096);
    let words = check_cases::bytes(alloc, seed, 256, count)?;
    let mut order = [0u8; 2050];
    let drawn = cmd_draw::draw_order(n, &words, &mut order);
    tally.count(drawn.is_ok());
    let order = written(&order, drawn);

    let mut sheet = [0u8; sheets::SHEET_ROOM];
    let made = cmd_sheet::order_sheet(order, &mut sheet);
    tally.count(made.is_ok());
    let sheet = written(&sheet, made);

    let home = check_cases::bytes(alloc, seed, 256, tally::times(n, width))?;
    let mut blocks = home.clone()?;
    let mixed = cmd_move::mix(sheet, width, &mut blocks);
    tally.count(mixed.is_ok());
    tally.count(blocks == plain::scatter(alloc, order, width, &home)?);
    let back = cmd_move::unmix(sheet, width, &mut blocks);
    tally.count(back.is_ok());
    tally.count(blocks == home);
    Ok(tally)
}

// ---- refused calls: the number, the place, and the buffer as it was

fn unmoved(
    tally: &mut Tally,
    sheet: &[u8],
    width: usize,
    blocks: &mut [u8],
    number: usize,
    place: usize,
) {
    let mixed = cmd_move::mix(sheet, width, blocks);
    tally.count(tally::refused(mixed, number, place));
    let back = cmd_move::unmix(sheet, width, blocks);
    tally.count(tally::refused(back, number, place));
    tally.count(kept(blocks));
}

const BAD_SHEETS: [(&[u8], usize, usize); 10] = [
    (b"", 8, 0),
    (b"\x80", 8, 1),
    (b"\x80\x00", 9, 0),
    (b"\x02\x09", 10, 0),
    (b"\x01", 8, 1),
    (b"\x01\x81\x08", 1, 0),
    (b"\x01\x09\x88\x2f", 8, 4),
    (b"\x01\x03\x86\x00", 9, 2),
    (b"\x01\x03\x0e", 11, 2),
    (b"\x01\x00\x00", 12, 2),
];

fn bad_sheets() -> Tally {
    let mut tally = Tally::new();
    for (sheet, number, place) in BAD_SHEETS {
        let mut text = [7u8; 16384];
        let shown = cmd_show::show_sheet(sheet, &mut text);
        tally.count(tally::refused(shown, number, place));
        tally.count(kept(&text));
        unmoved(&mut tally, sheet, 1, &mut [7u8; 9], number, place);
    }
    tally
}

// Blocks of a width, as many bytes, and the question.
const BAD_BLOCKS: [(usize, usize, usize); 5] = [
    (0, 9, 2),
    (257, 9, 2),
    (10000, 9, 2),
    (1, 8, 3),
    (1, 10, 3),
];

fn bad_blocks(alloc: Global) -> Result<Tally, AllocError> {
    let mut tally = Tally::new();
    for (width, bytes, number) in BAD_BLOCKS {
        let mut blocks = vec![in alloc; 7u8; bytes]?;
        unmoved(
            &mut tally,
            b"\x01\x09\x88\x2f\x1d",
            width,
            &mut blocks,
            number,
            0,
        );
    }
    Ok(tally)
}

const BAD_ORDERS: [(&[u8], usize, usize); 6] = [
    (b"", 8, 0),
    (b"\x81\x08", 1, 0),
    (b"\x02\x00", 8, 2),
    (b"\x02\x00\x80\x00", 9, 2),
    (b"\x02\x00\x00\x07", 12, 3),
    (b"\x02\x00\x00", 6, 1),
];

fn bad_orders() -> Tally {
    let mut tally = Tally::new();
    for (order, number, place) in BAD_ORDERS {
        let mut sheet = [7u8; sheets::SHEET_ROOM];
        let made = cmd_sheet::order_sheet(order, &mut sheet);
        tally.count(tally::refused(made, number, place));
        tally.count(kept(&sheet));
    }
    tally
}

// 70 words: so many that are skipped with three places left, and behind them 0s.
fn skipped(count: usize) -> [u8; 280] {
    let mut words = [0u8; 280];
    for byte in words.iter_mut().take(count.saturating_mul(4)) {
        *byte = 255;
    }
    words
}

fn bad_draws() -> Tally {
    let cases: [(usize, &[u8], usize); 6] = [
        (1025, &[1; 40], 1),
        (10000, &[1; 40], 1),
        (11, &[1; 40], 18),
        (3, b"\xff\xff\xff\xff\x02\0\0\0\x01\0\0\0", 18),
        (3, &skipped(65), 18),
        (1, b"abc", 18),
    ];
    let mut tally = Tally::new();
    for (n, words, number) in cases {
        let mut order = [7u8; 2050];
        let drawn = cmd_draw::draw_order(n, words, &mut order);
        tally.count(tally::refused(drawn, number, 0));
        tally.count(kept(&order));
    }
    tally
}

// ---- orders drawn

// Three places. 01, case j; with its first word behind one that is skipped, and with a word left over; and with all the spare
// words skipped.
fn orders_drawn() -> Tally {
    let cases: [(&[u8], &[u8]); 4] = [
        (b"\x02\0\0\0\x01\0\0\0\0\0\0\0", b"\x03\x02\x00\x01"),
        (
            b"\xff\xff\xff\xff\x02\0\0\0\x01\0\0\0\0\0\0\0",
            b"\x03\x02\x00\x01",
        ),
        (
            b"\x02\0\0\0\x01\0\0\0\0\0\0\0\x09\x09\x09\x09",
            b"\x03\x02\x00\x01",
        ),
        (&skipped(64), b"\x03\x00\x01\x02"),
    ];
    let mut tally = Tally::new();
    for (words, order) in cases {
        let mut made = [7u8; 2050];
        let drawn = cmd_draw::draw_order(3, words, &mut made);
        tally.count(drawn.is_ok());
        tally.count(written(&made, drawn) == order);
    }
    tally
}

// ---- sheets shown, with texts made by another program

const SHOWN: [(&[u8], &[u8]); 5] = [
    (b"\x01\x00", b"places 0\nsetting -\norder -\n"),
    (b"\x01\x01", b"places 1\nsetting -\norder 0\n"),
    (
        b"\x01\x02\x01",
        b"places 2\nsetting 1\norder 1 0\n   1\n 0 1\n 1 1\n",
    ),
    (
        b"\x01\x03\x06",
        b"places 3\nsetting 011\norder 1 2 0\n   0 1 1\n 0 0 1 1\n 1 | 1 |\n 2 0 - 1\n",
    ),
    (
        b"\x01\x04\x15",
        b"places 4\nsetting 10101\norder 1 3 0 2\n   1 0 1 01\n 0 1 0 - 0-\n 1 | 0 - |1\n 2 1 - 1 0|\n 3 - - 1 -1\n",
    ),
];

fn sheets_shown() -> Tally {
    let mut tally = Tally::new();
    for (sheet, right) in SHOWN {
        let mut text = [7u8; 16384];
        let shown = cmd_show::show_sheet(sheet, &mut text);
        tally.count(shown.is_ok());
        tally.count(written(&text, shown) == right);
    }
    tally
}

fn main(rt: HostRuntime) -> io::Result<()> {
    let alloc = rt.alloc();
    let _ = println!(rt; "9 blocks of 1 byte: {}", job(alloc, 9, 1, 1)?);
    let _ = println!(rt; "5 blocks of 6 bytes: {}", job(alloc, 5, 6, 2)?);
    let _ = println!(rt; "no block: {}", job(alloc, 0, 3, 3)?);
    let _ = println!(rt; "1,024 blocks of 256 bytes: {}", job(alloc, 1024, 256, 4)?);
    let _ = println!(rt; "sheets refused: {}", bad_sheets());
    let _ = println!(rt; "blocks refused: {}", bad_blocks(alloc)?);
    let _ = println!(rt; "orders refused: {}", bad_orders());
    let _ = println!(rt; "draws refused: {}", bad_draws());
    let _ = println!(rt; "orders drawn: {}", orders_drawn());
    let _ = println!(rt; "sheets shown: {}", sheets_shown());
    Ok(())
}
