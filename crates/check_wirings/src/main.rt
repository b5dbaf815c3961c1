// Runs the calls in the neighbour wiring, and the converter, on values that are written down, and on every set of faults. Prints how
// much was compared and how much of it was equal.
#![tactic(auto)]

mod refusals;
mod values;

use std::io;

fn main(rt: HostRuntime) -> io::Result<()> {
    let values = values::all(rt.alloc())?;
    let refusals = refusals::all();
    let _ = println!(rt; "written values: {values}");
    let _ = println!(rt; "refusals: {refusals}");
    Ok(())
}
