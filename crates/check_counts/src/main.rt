// Compares the counts of 0 to 1,024 places: of switches the table, the recursion on halves and the closed formula; of entries
// the recursion and the counts filled in upwards, without recursion. It counts those that are equal, so one difference changes
// what is printed.
#![tactic(auto)]

ghost use Rattle.std.specs.Prelude.{◌≤◌, length};

use std::io;
use tally::Tally;

// Whether the three ways give one switch count.
fn same_switches(n: usize) -> bool
    requires { n ≤ 1024 }
{
    let table = counts::switches(n) as u64;
    let places = n as u32;
    table == counts::switches_by_halves(places) && table == counts::switches_by_formula(places)
}

// The next entry count from those of fewer places: two for two places; of more, steps 1, 2, 3 for each of the k pairs, then 4,
// 5, 6 and the entries of the halves.
fn next_entries(fewer: &[usize]) -> usize
    requires { length fewer.now ≤ 1024 }
{
    let n = fewer.len();
    if n <= 2 {
        return if n == 2 { 2 } else { 0 };
    }
    let k = n - n / 2;
    let halves = fewer[k].wrapping_add(fewer[n / 2]);
    halves.wrapping_add(3 * k + 3)
}

// Looks at every n from 0 to 1,024, and prints what was counted.
fn compare(rt: &(impl Print + Alloc)) -> io::Result<()> {
    let mut filled = Vec::new(rt.alloc());
    let mut switches = Tally::new();
    let mut entries = Tally::new();
    for n in 0..1025 {
        let due = next_entries(&filled);
        filled.push(due)?;
        switches.count(same_switches(n));
        entries.count(due == counts::entries(n));
    }
    print(rt, "switch counts", switches);
    print(rt, "entry counts", entries);
    Ok(())
}

// A line: how many were compared, and how many were equal.
fn print(rt: &impl Print, counts: &str, tally: Tally) {
    let Tally { compared, equal } = tally;
    let _ = println!(rt; "{counts} compared {compared} equal {equal}");
}

fn main(rt: HostRuntime) -> io::Result<()> {
    compare(&rt)?;
    let _ = println!(rt; "W(9) {}", counts::switches(9));
    let _ = println!(rt; "W(1024) {}", counts::switches(1024));
    let _ = println!(rt; "E(3) {}", counts::entries(3));
    let _ = println!(rt; "E(9) {}", counts::entries(9));
    let _ = println!(rt; "E(1024) {}", counts::entries(1024));
    Ok(())
}
