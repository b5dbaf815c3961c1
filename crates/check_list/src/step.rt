// The classic step from an order to the next one in dictionary order.
ghost use Rattle.std.specs.Prelude.{◌≤◌};

use std::mem;

// The first order of n places, 0 to n - 1, and 7 behind it.
pub(crate) fn start(n: usize) -> [u16; 8]
    requires { n ≤ 8 }
{
    let mut order = [7u16; 8];
    for (i, entry) in (0..).zip(&mut order[..n]) {
        *entry = i;
    }
    order
}

// The entries behind the last one that is below its follower fall: they are turned, and the first of them above it changes places
// with it. Says whether there is such a one.
pub(crate) fn next(order: &mut [u16]) -> bool {
    let Some(last) = order.windows(2).rposition(|pair| pair[0] < pair[1]) else {
        return false;
    };
    let (front, behind) = order.split_at_mut(last + 1);
    behind.reverse();
    if let Some(above) = behind.iter().position(|entry| front[last] < *entry) {
        mem::swap(&mut front[last], &mut behind[above]);
    }
    true
}
