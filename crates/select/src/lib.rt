// Small oblivious functions on numbers. All numbers below are hidden: no branch depends on one. They are 16 bits wide, so that a
// sweep takes several places at a time. Every function is public for the crates of the calls, which have asked their questions
// before: so it may `require` sizes. These stay clauses: the sweeps load plain numbers, and a type would be wrapped around each.
#![tactic(auto)]

ghost use Rattle.std.specs.Prelude.{◌≡◌, not, cond, ◌*◌, ◌<◌, eqb, ltb};
ghost use Rattle.steps.specs.Steps.{digit};

// 1 where a is b or more, else 0, by the carry of a sum: a comparison may be compiled to a jump.
pub fn at_least(a: u16, b: u16) -> u16
    requires { (a < 32768) × (b < 32768) }
    ensures { result ≡ digit (not (ltb a b)) }
{
    (a + 32768 - b) / 32768
}

// 1 where a is below b, else 0.
pub fn below(a: u16, b: u16) -> u16
    requires { (a < 32768) × (b < 32768) }
    ensures { (result ≡ digit (ltb a b)) × (result < 2) }
{
    1 - at_least(a, b)
}

// 1 where a and b are equal, else 0.
pub fn equal(a: u16, b: u16) -> u16
    requires { (a < 32768) × (b < 32768) }
    ensures { result ≡ digit (eqb a b) }
{
    at_least(a, b) * at_least(b, a)
}

// All ones where s is 1, all zeros where s is 0.
pub fn mask(s: u16) -> u16
    requires { s < 2 }
    ensures { result ≡ s * 65535 }
{
    s * 65535
}

// a where s is 1, b where s is 0.
pub fn pick(s: u16, a: u16, b: u16) -> u16
    requires { s < 2 }
    ensures { result ≡ cond (eqb s 1) a b }
{
    let m = mask(s);
    (a & m) | (b & (65535 - m))
}

// 1 where a is below b, else 0, by a comparison of signed numbers: with `pick` it is what the compiler knows as a maximum or
// a minimum, and of signed numbers the machine has one for several places at a time. By `at_least` it would take one.
pub fn less(a: u16, b: u16) -> u16
    requires { (a < 32768) × (b < 32768) }
    ensures { result ≡ digit (ltb a b) }
{
    u16::from((a as i16) < (b as i16))
}

// The greater of two, and the smaller, by a mask (no `max` or `min` of std: they compare without a sign, and branch in their text).
pub fn most(a: u16, b: u16) -> u16
    requires { (a < 32768) × (b < 32768) }
    ensures { result ≡ cond (ltb a b) b a }
{
    pick(less(a, b), b, a)
}

pub fn least(a: u16, b: u16) -> u16
    requires { (a < 32768) × (b < 32768) }
    ensures { result ≡ cond (ltb a b) a b }
{
    pick(less(a, b), a, b)
}
