// `sheet`: the sheet of the order on standard input (01: set, write sheet), which is read as `settings` reads it.
#![tactic(auto)]

use cmd_usage::Program;

fn sheet(rt: &HostRuntime, input: &[u8]) {
    let mut made = [0u8; sheets::SHEET_ROOM];
    let answer = cmd_sheet::order_sheet(input, &mut made);
    let n = answer.unwrap_or(0);
    cmd_io::finish(rt, Program::Sheet, answer.into(), &made[..n]);
}

fn main(rt: HostRuntime) {
    if cmd_io::misused(&rt, Program::Sheet, 0) {
        return;
    }
    let mut input = cmd_read_order::input_buffer();
    let Some(n) = cmd_io::read_input(&rt, Program::Sheet, &mut input) else {
        return;
    };
    sheet(&rt, &input[..n]);
}
