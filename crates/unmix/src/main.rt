// `unmix SHEET WIDTH`: moves the blocks on standard input, each of WIDTH bytes, backward by the sheet in the file SHEET (01:
// return).
// A byte more than the longest sheet, of 1,320, is read, so that a surplus shows.
#![tactic(auto)]

use cmd_usage::Program;

// The blocks' buffer is made in a function of its own: so only where the arguments are usable and the sheet was read.
fn read(rt: &HostRuntime, sheet: &[u8], width: usize) {
    let mut blocks = cmd_move::blocks_buffer();
    cmd_io::move_blocks(
        rt,
        Program::Unmix,
        sheet,
        width,
        &mut blocks,
        cmd_move::unmix,
    );
}

fn main(rt: HostRuntime) {
    let Some(width) = cmd_io::last_number(&rt, Program::Unmix, 2) else {
        return;
    };
    let mut sheet = sheets::input_buffer();
    let Some(n) = cmd_io::read_named(&rt, Program::Unmix, 1, &mut sheet) else {
        return;
    };
    read(&rt, &sheet[..n], width);
}
