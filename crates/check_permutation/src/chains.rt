// Chains of drawn calls: each starts from the fresh record and goes on from the record that the call before it gave. Beside it a
// list is changed by the plain computations, and after each call the record is compared with one rebuilt from that list.
use crate::{draws, plain};
use records::{Permutation, Reply};
use std::alloc::{AllocError, Global};
use tally::Tally;

// Where a chain stands: the list, and the record that the last call gave.
#[derive(Drop)]
struct Chain {
    list: Vec<u16>,
    record: Permutation,
}

// ---- what is drawn

// A place below n; 0 where there is none.
fn place(x: u32, n: usize) -> usize {
    if n == 0 { 0 } else { x as usize % n }
}

// A drawn place; or the one that entry i names, so that this entry comes home.
fn partner(list: &[u16], i: usize, x: u32) -> usize {
    if x % 2 == 0 {
        place(tally::next(x), list.len())
    } else {
        plain::at(list, i)
    }
}

// A drawn order; or the list's inverse with two places exchanged, by which nearly all entries come home.
fn order(alloc: Global, list: &[u16], x: u32) -> Result<Vec<u16>, AllocError> {
    let n = list.len();
    if x % 2 == 0 {
        return draws::order(alloc, x, n);
    }
    let mut order = plain::inverse(alloc, list)?;
    check_cases::exchange(&mut order, place(x, n), place(tally::next(x), n));
    Ok(order)
}

// ---- a call, and the same on the list

impl Chain {
    fn start(alloc: Global, n: usize) -> Result<Chain, AllocError> {
        Ok(Chain {
            list: plain::identity(alloc, n)?,
            record: Permutation::identity(n).permutation,
        })
    }

    // After a call with this reply, which should be this one.
    fn compare(&mut self, tally: &mut Tally, reply: Reply, right: Reply) {
        tally.count(reply == right);
        self.record = reply.permutation;
    }

    // After an accepted call, with the list as that changes it.
    fn step(&mut self, tally: &mut Tally, reply: Reply, list: Vec<u16>) {
        self.compare(tally, reply, plain::accepted(&list));
        self.list = list;
    }

    // Accepted; but a record of no places has none to exchange.
    fn exchange(&mut self, tally: &mut Tally, x: u32) {
        let i = place(x, self.list.len());
        let j = partner(&self.list, i, x);
        check_cases::exchange(&mut self.list, i, j);
        let number = if self.list.is_empty() { 14 } else { 0 };
        let right = plain::refused(number, 0, plain::record(&self.list));
        let reply = self.record.exchange(i, j);
        self.compare(tally, reply, right);
    }

    fn invert(&mut self, alloc: Global, tally: &mut Tally) -> Result<(), AllocError> {
        let list = plain::inverse(alloc, &self.list)?;
        let reply = self.record.inverse();
        self.step(tally, reply, list);
        Ok(())
    }

    fn ask(&mut self, tally: &mut Tally) {
        let right = plain::asked(plain::record(&self.list));
        let reply = self.record.fixed_points();
        self.compare(tally, reply, right);
    }

    // Combined with the record of a drawn order, which comes second.
    fn combine(&mut self, alloc: Global, tally: &mut Tally, x: u32) -> Result<(), AllocError> {
        let order = order(alloc, &self.list, x)?;
        let list = plain::combine(alloc, &self.list, &order)?;
        let reply = self
            .record
            .combine(Permutation::from_list(&order).permutation);
        self.step(tally, reply, list);
        Ok(())
    }

    // .. and which comes first: a function of its own, since which record comes first is what is tested.
    fn combine_after(
        &mut self,
        alloc: Global,
        tally: &mut Tally,
        x: u32,
    ) -> Result<(), AllocError> {
        let order = order(alloc, &self.list, x)?;
        let list = plain::combine(alloc, &order, &self.list)?;
        let reply = Permutation::from_list(&order)
            .permutation
            .combine(self.record);
        self.step(tally, reply, list);
        Ok(())
    }

    // By a drawn number, matched here alone: half of the calls exchange.
    fn call(
        &mut self,
        alloc: Global,
        tally: &mut Tally,
        kind: u32,
        x: u32,
    ) -> Result<(), AllocError> {
        match kind {
            0..=3 => self.exchange(tally, x),
            4 => self.invert(alloc, tally)?,
            5 => self.ask(tally),
            6 => self.combine(alloc, tally, x)?,
            _ => self.combine_after(alloc, tally, x)?,
        }
        Ok(())
    }
}

// ---- the chains

fn run(alloc: Global, tally: &mut Tally, n: usize, seed: u32) -> Result<(), AllocError> {
    let mut chain = Chain::start(alloc, n)?;
    let mut x = seed;
    for _ in 0..50 {
        x = tally::next(tally::next(x));
        chain.call(alloc, tally, x % 8, tally::next(x))?;
    }
    Ok(())
}

const LENGTHS: [usize; 8] = [0, 1, 2, 5, 6, 100, 1023, 1024];

// Two chains for each length.
pub(crate) fn all(alloc: Global) -> Result<Tally, AllocError> {
    let mut tally = Tally::new();
    let mut seed = 50u32;
    for _ in 0..2 {
        for n in LENGTHS {
            run(alloc, &mut tally, n, seed)?;
            seed = seed.wrapping_add(20240229);
        }
    }
    Ok(tally)
}
