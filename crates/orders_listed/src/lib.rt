// The r-th order of at most 6 places, in dictionary order (02, F-3). The public functions serve the crates of the call and of the
// program, which have asked their questions before: so they may `require` sizes.
// Hidden: r, its digits and the order's entries. No branch and no index below depends on one of these.
#![tactic(auto)]

ghost use Rattle.std.specs.Prelude.{◌≡◌, map, ◌*◌, ◌/◌, ◌≤◌, ◌<◌, length};
ghost use Rattle.counts.specs.Table.{StandsAt};
ghost use Rattle.control_sweeps.specs.Tables.{Below};
ghost use Rattle.orders_listed.specs.Ranks.{factorial, past, order_at};

// How many orders 0 to 6 places have.
const ORDERS: [u16; 7] = [1, 1, 2, 6, 24, 120, 720];

// How many orders n places have.
pub fn count_orders(n: usize) -> u16
    requires { n ≤ 6 }
    ensures { (result ≡ factorial n) × (result ≤ 720) }
{
    read_table(&ORDERS, n)
}

// The number at place n of the table. (`counts` has one for its own: one over the length would have to speak of every length.)
fn read_table(table: &[u16; 7], n: usize) -> u16
    requires { n ≤ 6 }
    ensures { StandsAt table.now n result }
{
    table[n]
}

// Which digit r begins with: how often f goes into r, for r below n × f. A division would take a time that follows r.
fn first_digit(n: usize, r: u16, f: u16) -> u16
    requires { (n ≤ 6) × (f ≤ 720) × (r < n * f) }
    ensures { result ≡ r / f }
{
    let mut d = 0;
    for i in 1..n {
        d += select::at_least(r, i as u16 * f);
    }
    d
}

// Each entry from d on moves up by one, so that d is free.
fn make_way(d: u16, order: &mut [u16])
    requires { (d < 1024) × Below 1024 order.old }
    ensures { order.new ≡ map (past d) order.old }
{
    for x in order.iter_mut() {
        *x += select::at_least(*x, d);
    }
}

// The r-th order of as many places as `order` has.
pub fn write_order(r: u16, order: &mut [u16])
    requires { (length order.old ≤ 6) × (r < factorial (length order.old)) }
    ensures { order.new ≡ order_at (length order.old) r }
{
    let n = order.len();
    if n == 0 {
        return;
    }
    let f = count_orders(n - 1);
    let d = first_digit(n, r, f);
    order[0] = d;
    write_order(r - d * f, &mut order[1..]);
    make_way(d, &mut order[1..]);
}
