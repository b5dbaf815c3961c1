// What the setter's steps hand on from one to the next, and what a step did with it. Public for the crates of the steps; the
// call `set` has asked its questions before: so `passed` may `require` sizes.
#![tactic(auto)]

ghost use Rattle.std.specs.Prelude.{◌≡◌, ◌+◌, ◌<◌};

// The hidden numbers of the walk along the rings, with 1 in `any` where a pair of the network is marked; how many entries are
// written, and the position of the next bit. By default nothing is done: the walk as it begins. Its bounds are clauses and no ghost field:
// definitions make a walk of any numbers.
#[derive(Clone, Copy, Default)]
pub struct Walk {
    pub f: u16,
    pub c: u16,
    pub g: u16,
    pub s: u16,
    pub any: u16,
    pub e: usize,
    pub b: usize,
}

impl Walk {
    // A step was done that passed n bits.
    pub fn passed(self, n: usize) -> Walk
        requires { (self.e + 1 < 18446744073709551616) × (self.b + n < 18446744073709551616) }
        ensures { result ≡ record { f = self.f; c = self.c; g = self.g; s = self.s; any = self.any; e = self.e + 1; b = self.b + n } }
    {
        Walk {
            e: self.e + 1,
            b: self.b + n,
            ..self
        }
    }

    // No pair of the network is marked.
    pub fn unmarked(self) -> Walk
        ensures { result ≡ record { f = self.f; c = self.c; g = self.g; s = self.s; any = 0; e = self.e; b = self.b } }
    {
        Walk { any: 0, ..self }
    }
}
