// `draw N`: an order of N places from random bytes on standard input (01: draw; 02, F-5), as `settings` and `sheet` read it.
// It reads at most 4·(N + 64) of them, so that an input without end will do.
#![tactic(auto)]

use cmd_usage::Program;

fn draw(rt: &HostRuntime, places: usize, bytes: &[u8]) {
    let mut order = [0u8; 2050];
    let answer = cmd_draw::draw_order(places, bytes, &mut order);
    let n = answer.unwrap_or(0);
    cmd_io::finish(rt, Program::Draw, answer.into(), &order[..n]);
}

fn read(rt: &HostRuntime, bytes: &mut [u8], n: usize) {
    let Some(count) = cmd_io::read_input(rt, Program::Draw, bytes) else {
        return;
    };
    draw(rt, n, &bytes[..count]);
}

fn main(rt: HostRuntime) {
    let Some(n) = cmd_io::last_number(&rt, Program::Draw, 1) else {
        return;
    };
    let mut bytes = [0u8; 4352];
    let most = cmd_draw::bytes_for(n);
    read(&rt, &mut bytes[..most], n);
}
