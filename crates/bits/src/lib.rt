// Masks: numbers of which each bit is a test.
//
// one(n): the mask with bit n alone. meet(a, b), join(a, b), less(a, b): the bits that both have, that one of them has, that a has
// and b lacks.
//
// Each contract speaks of every bit, so that what a mask says of a number is computed as tests are. The laws (proofs/) are what the
// crates above cite. A mask stays a plain u32: digits, shifts and counts of zeros make and read masks too, and each would unwrap a
// type of masks first.
#![tactic(auto)]

ghost use Rattle.std.specs.Prelude.{◌≡◌, not, ◌&&◌, ◌||◌, ℕ, ◌<◌, eqb};
ghost use Rattle.bits.specs.Bits.{bit};

// The mask with bit n alone.
pub fn one(n: u32) -> u32
    requires { n < 32 }
    ensures { (k : ℕ) → bit result k ≡ eqb k n }
{
    1 << n
}

// The bits that both have.
pub fn meet(a: u32, b: u32) -> u32
    ensures { (k : ℕ) → bit result k ≡ (bit a k && bit b k) }
{
    a & b
}

// The bits that one of them has.
pub fn join(a: u32, b: u32) -> u32
    ensures { (k : ℕ) → bit result k ≡ (bit a k || bit b k) }
{
    a | b
}

// The bits that a has and b lacks.
pub fn less(a: u32, b: u32) -> u32
    ensures { (k : ℕ) → bit result k ≡ (bit a k && not (bit b k)) }
{
    a & (a ^ b)
}
