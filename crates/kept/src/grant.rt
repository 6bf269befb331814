// What one slot makes of numbers and tables, from the number granted. A grant to a domain takes one path whatever its kind: what
// it takes are digits that are added and taken off. Which kind comes next cannot be foreseen, and a branch on it costs more.
ghost use Rattle.std.specs.Prelude.{◌≡◌, ◌≢◌, false, ◌<◌, ◌≤◌};
ghost use Rattle.bits.specs.Bits.{bit};
ghost use Rattle.regulator.specs.Turn.{after};
ghost use Rattle.kept.specs.Tables.{Few};
ghost use Rattle.kept.specs.Numbers.{Kept, Ready};
ghost use Rattle.kept.specs.Grant.{one, taken_of, Lasting, Refreshed, Renewed, Fit, Gives, rested, served};

use super::deciding::Limits;
use super::numbers::Numbers;
use super::tables::{Row, Tables, Taken};
use engine::{Masks, Picked};

// A grant to one domain: what it takes, the domain's row after it, and the domain's caps.
#[derive(Clone, Copy)]
struct Grant {
    taken: Taken,
    row: Row,
    reclaimcap: u16,
    writebackcap: u16,
}

// Bit n of a mask, as 1 or 0. (What bounds a bit's number and a sum is required where it is used: a slot that ends a period takes the
// numbers to their bounds, so no type of them has it throughout.)
fn digit(mask: u32, n: u32) -> u16
    requires { n < 32 }
    ensures { result ≡ one (bit mask n) }
{
    (mask >> n & 1) as u16
}

// What a grant to domain n takes: of a writeback, writeback claim if there is any; of an access, claim if there is any, else stock.
fn taken_of(n: u32, writeback: u32, masks: Masks) -> Taken
    requires { n < 32 }
    ensures is { result ≡ taken_of (bit writeback n) (bit masks.has n) (bit masks.back n) }
    ensures few { Few result }
{
    let w = digit(writeback, n);
    let c = digit(bits::less(masks.has, writeback), n);
    let b = digit(bits::meet(writeback, masks.back), n);
    Taken {
        claim: c,
        stock: 1 - (c + w),
        writeback: w,
        writebackclaim: b,
    }
}

// The number k where the test holds, else 0.
fn only(k: u16, test: bool) -> u16
    ensures most { result ≤ k }
    ensures none { result ≡ 0 → k ≢ 0 → test ≡ false }
{
    if test { k } else { 0 }
}

// The mask with bit n as it is now, where that may have changed: the two tests are the definition's.
fn refreshed(mask: u32, n: u32, moved: bool, on: bool) -> u32
    requires { n < 32 }
    ensures { Refreshed mask n moved on result }
{
    if !moved {
        return mask;
    }
    if on {
        bits::join(mask, bits::one(n))
    } else {
        bits::less(mask, bits::one(n))
    }
}

// The number after n: after 16 it is 0. (The first engine's `next_number` is of an index; one for both would be a parameter more, and no
// plainer.)
fn turn_after(n: u32) -> u32
    requires { n ≤ 16 }
    ensures { result ≡ after n }
{
    if n == 16 { 0 } else { n + 1 }
}

impl Grant {
    // May a claim have been used up or a cap been reached? Only then is a bit of a mask to be set anew.
    fn has_ended(self) -> bool
        requires { Few self.taken }
        ensures { result ≡ false → Lasting self.taken self.row self.reclaimcap self.writebackcap }
    {
        let taken = self.taken;
        let row = self.row;
        let claim = only(taken.claim, row.claim == 0);
        let reclaim = only(taken.stock, row.reclaimed == self.reclaimcap);
        let room = only(taken.writeback, row.writebacks == self.writebackcap);
        let back = only(taken.writebackclaim, row.writebackclaim == 0);
        claim + reclaim + room + back != 0
    }

    // The numbers after the grant, to the domain that was picked.
    fn renew(self, f: Numbers, picked: Picked, ended: bool) -> Numbers
        requires n_bound { (picked.number ≤ 16) × (picked.steps ≤ 17) }
        requires few { Few self.taken × (self.taken.stock ≤ f.stock) }
        requires decided_bound { (f.decided < 4096) × (f.steps ≤ 69632) × (f.spoken ≤ 8192) }
        ensures { Renewed f picked.number picked.steps self.taken self.row ended self.reclaimcap self.writebackcap result }
    {
        let n = picked.number;
        let taken = self.taken;
        let row = self.row;
        let has = refreshed(f.masks.has, n, ended, 0 < row.claim);
        let back = refreshed(f.masks.back, n, ended, 0 < row.writebackclaim);
        let may = refreshed(f.masks.may, n, ended, row.reclaimed != self.reclaimcap);
        let room = refreshed(f.masks.room, n, ended, row.writebacks != self.writebackcap);
        Numbers {
            decided: f.decided + 1,
            stock: f.stock - taken.stock,
            turn: turn_after(n),
            steps: f.steps + picked.steps,
            spoken: f.spoken + 1 - u32::from(taken.claim + taken.writebackclaim),
            masks: Masks {
                has,
                back,
                may,
                room,
            },
            ..f
        }
    }
}

// A grant to the domain that was picked.
pub(crate) fn give(
    f: Numbers,
    picked: Picked,
    writeback: u32,
    limits: &Limits,
    tables: &mut Tables,
) -> Numbers
    requires n_nonzero { (0 < picked.number) × (picked.number ≤ 16) × (picked.steps ≤ 17) }
    requires kept_2 { Kept limits.now.reclaimcap limits.now.writebackcap f tables.old }
    requires ready { Ready limits.now.reclaimcap limits.now.writebackcap f tables.old }
    requires fit { Fit f picked.number (bit writeback picked.number) }
    ensures kept { Kept limits.now.reclaimcap limits.now.writebackcap result tables.new }
    ensures state { Gives writeback picked.number picked.steps f tables.old result tables.new }
{
    let taken = taken_of(picked.number, writeback, f.masks);
    let i = picked.number as usize - 1;
    let row = tables.shift(i, taken);
    let grant = Grant {
        taken,
        row,
        reclaimcap: limits.reclaimcap[i],
        writebackcap: limits.writebackcap[i],
    };
    let ended = grant.has_ended();
    grant.renew(f, picked, ended)
}

// Nobody is granted.
pub(crate) fn rest(f: Numbers, steps: u32) -> Numbers
    requires { (steps ≤ 17) × (f.decided < 4096) × (f.idle ≤ 4096) × (f.steps ≤ 69632) × (f.spoken ≤ 8192) }
    ensures { result ≡ rested f steps }
{
    Numbers {
        decided: f.decided + 1,
        idle: f.idle + 1,
        steps: f.steps + steps,
        spoken: f.spoken + 1,
        ..f
    }
}

// Best effort is granted.
pub(crate) fn serve(f: Numbers, steps: u32) -> Numbers
    requires { (steps ≤ 17) × (f.decided < 4096) × (f.best ≤ 4096) × (f.steps ≤ 69632) × (f.spoken ≤ 8192) }
    ensures { result ≡ served f steps }
{
    Numbers {
        decided: f.decided + 1,
        best: f.best + 1,
        turn: 1,
        steps: f.steps + steps,
        spoken: f.spoken + 1,
        ..f
    }
}
