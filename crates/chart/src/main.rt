// The program `chart`: blocks on standard input, a line for each of their gauges on standard output (02, F-1).
#![tactic(auto)]

use cmd_usage::Program;

fn chart(rt: &HostRuntime, input: &[u8]) {
    let mut text = [0u8; 68608];
    let end = cmd_chart::chart_text(input, &mut text);
    cmd_io::write_output(rt, Program::Chart, &text[..end]);
}

// Much as in list and settings: shared, it would need a promise of what it is handed, that the text's length lies within its buffer.
fn main(rt: HostRuntime) {
    if cmd_io::misused(&rt, Program::Chart, 0) {
        return;
    }
    let mut input = cmd_chart::input_buffer();
    let Some(n) = cmd_io::read_input(&rt, Program::Chart, &mut input) else {
        return;
    };
    chart(&rt, &input[..n]);
}
