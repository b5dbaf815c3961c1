// `show SHEET`: the places, the setting and the order of the sheet in the file SHEET, and a picture of a small network.
// A byte more than the longest sheet, of 1,320, is read, so that a surplus shows.
#![tactic(auto)]

use cmd_usage::Program;

fn show(rt: &HostRuntime, sheet: &[u8]) {
    let mut text = [0u8; 16384];
    let answer = cmd_show::show_sheet(sheet, &mut text);
    let n = answer.unwrap_or(0);
    cmd_io::finish(rt, Program::Show, answer.into(), &text[..n]);
}

fn main(rt: HostRuntime) {
    if cmd_io::misused(&rt, Program::Show, 1) {
        return;
    }
    let mut sheet = sheets::input_buffer();
    let Some(n) = cmd_io::read_named(&rt, Program::Show, 1, &mut sheet) else {
        return;
    };
    show(&rt, &sheet[..n]);
}
