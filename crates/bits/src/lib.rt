// Control bits as bytes, and question 7: is every bit byte 0 or 1?
// The bits are secret: each function sweeps all of them and selects by arithmetic; the one branch is on 'all are bits'.
#![tactic(auto)]

ghost use Rattle.std.specs.Prelude.{◌≡◌, ◌<◌, ◌≤◌, ◌+◌, length, get_or, ltb};
ghost use Rattle.answers.specs.Questions.{first_bad};
ghost use Rattle.bits.specs.Bits.{is_bit, unequal};

// 1 where some byte is no bit, else 0.
fn some_bad(bits: &[u8]) -> u8
    ensures { result ≡ unequal (first_bad (is_bit bits.now) (length bits.now)) (length bits.now) }
{
    let mut bad: u8 = 0;
    for bit in bits {
        bad |= u8::from(1 < *bit);
    }
    bad
}

// The first index of a byte that is no bit, or the length.
fn locate_bad(bits: &[u8]) -> usize
    ensures { result ≡ first_bad (is_bit bits.now) (length bits.now) }
{
    let mut low = 0;
    for (i, bit) in bits.iter().enumerate() {
        low += usize::from(*bit < 2) & usize::from(low == i);
    }
    low
}

// Question 7 of every call that is handed bits: the first index of a byte that is no bit, or the length.
// The first sweep is the fast one; the second runs only in a refused call.
pub fn first_bad_bit(bits: &[u8]) -> usize
    ensures { result ≡ first_bad (is_bit bits.now) (length bits.now) }
{
    if some_bad(bits) == 0 {
        return bits.len();
    }
    locate_bad(bits)
}
