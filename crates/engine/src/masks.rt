// The masks of a slot: who offers what, who has claim and room, who waits on claim, and who passes.
ghost use Rattle.std.specs.Prelude.{◌≡◌, not, ◌&&◌, ◌||◌, ℕ, ◌<◌, eqb, leb, length};
ghost use Rattle.table.specs.Sums.{nth};
ghost use Rattle.bits.specs.Bits.{bit};
ghost use Rattle.engine.specs.Inner.{Marks, Marked, wait_at, free_at, pass_at};

// Masks of a state: the numbers that have claim, that have writeback claim, that may reclaim, and that have room for a writeback.
#[derive(Clone, Copy)]
pub struct Masks {
    pub has: u32,
    pub back: u32,
    pub may: u32,
    pub room: u32,
}

// The mask with bit n set where told.
pub fn with_bit(m: u32, n: u32, on: bool) -> u32
    requires { n < 32 }
    ensures { (k : ℕ) → bit result k ≡ (bit m k || (eqb k n && on)) }
{
    if on { bits::join(m, bits::one(n)) } else { m }
}

// The numbers of the domains at which two tables differ.
fn unlike(a: [u16; 16], b: [u16; 16]) -> u32
    ensures { Marks result (λ (k : ℕ). not (eqb (nth a k) (nth b k))) }
{
    let mut m = 0;
    for i in 0..16 {
        m = with_bit(m, i as u32 + 1, a[i] != b[i]);
    }
    m
}

// The masks of a state's tables. Best effort has no cap. Six tables and no State: a State would ask more of those who call it.
pub fn masks_of(
    claim: [u16; 16],
    writebackclaim: [u16; 16],
    reclaimed: [u16; 16],
    writebacks: [u16; 16],
    reclaimcap: [u16; 16],
    writebackcap: [u16; 16],
) -> Masks
    ensures { Marked claim writebackclaim reclaimed writebacks reclaimcap writebackcap result.has result.back result.may result.room }
{
    let none = [0; 16];
    let room = unlike(writebacks, writebackcap);
    Masks {
        has: unlike(claim, none),
        back: unlike(writebackclaim, none),
        may: unlike(reclaimed, reclaimcap),
        room: with_bit(room, 0, true),
    }
}

// The numbers that offer a kind: 1 access, 2 writeback.
pub(crate) fn offering(offers: &[u8], kind: u8) -> u32
    requires offers_len { length offers.now ≡ 17 }
    requires kind_nonzero { 0 < kind }
    ensures bits { (n : ℕ) → bit result n ≡ eqb (nth offers.now n) kind }
    ensures small { result < 131072 }
{
    let mut m = 0;
    for (n, &offer) in offers.iter().enumerate() {
        m = with_bit(m, n as u32, offer == kind);
    }
    m
}

// The numbers that wait on claim.
pub fn waiting(access: u32, writeback: u32, has: u32, back: u32) -> u32
    requires access_bound { access < 131072 }
    requires writeback_bound { writeback < 131072 }
    ensures bits { (n : ℕ) → bit result n ≡ wait_at (bit access n) (bit writeback n) (bit has n) (bit back n) }
    ensures small { result < 131072 }
{
    (access & has) | (writeback & back)
}

// Is loose at most 0, where `spoken` is T and the claims, and does some domain wait on claim?
pub fn is_blocked(period: u32, spoken: u32, wait: u32) -> bool
    ensures { result ≡ (leb period spoken && not (eqb wait 0)) }
{
    period <= spoken && wait != 0
}

// The numbers that pass: those that wait on claim and, where the slot is not blocked, an access from stock or of best effort, and a
// writeback that has room.
pub fn passing(
    wait: u32,
    access: u32,
    writeback: u32,
    masks: Masks,
    stock: bool,
    blocked: bool,
) -> u32
    requires wait_bound { wait < 131072 }
    requires access_bound { access < 131072 }
    requires writeback_bound { writeback < 131072 }
    ensures bits { (n : ℕ) → bit result n ≡ pass_at (bit wait n) (free_at (eqb n 0) (bit access n) (bit writeback n) (bit masks.may n) (bit masks.room n) stock) blocked }
    ensures small { result < 131072 }
{
    if blocked {
        return wait;
    }
    if stock {
        return wait | ((access & (masks.may | 1)) | (writeback & masks.room));
    }
    wait | ((access & 1) | (writeback & masks.room))
}
