// The program `settings`: an order on standard input, its setting on standard output (01, 'Month cases').
#![tactic(auto)]

use cmd_usage::Program;

fn settings(rt: &HostRuntime, input: &[u8]) {
    let mut text = [0u8; 9252];
    let end = cmd_settings::settings_text(input, &mut text);
    cmd_io::write_output(rt, Program::Settings, &text[..end]);
}

// Much as in chart and list: shared, it would need a promise of what it is handed, that the text's length lies within its buffer.
fn main(rt: HostRuntime) {
    if cmd_io::misused(&rt, Program::Settings, 0) {
        return;
    }
    let mut input = cmd_read_order::input_buffer();
    let Some(n) = cmd_io::read_input(&rt, Program::Settings, &mut input) else {
        return;
    };
    settings(&rt, &input[..n]);
}
