// The program `list`: a length on standard input, a line for each order of so many places on standard output (02, F-3).
#![tactic(auto)]

use cmd_usage::Program;

fn list(rt: &HostRuntime, input: &[u8]) {
    let mut text = [0u8; 17280];
    let end = cmd_list::orders_text(input, &mut text);
    cmd_io::write_output(rt, Program::List, &text[..end]);
}

// Much as in chart and settings: shared, it would need a promise of what it is handed, that the text's length lies within its buffer.
fn main(rt: HostRuntime) {
    if cmd_io::misused(&rt, Program::List, 0) {
        return;
    }
    let mut input = cmd_list::input_buffer();
    let Some(n) = cmd_io::read_input(&rt, Program::List, &mut input) else {
        return;
    };
    list(&rt, &input[..n]);
}
