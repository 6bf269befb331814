// One slot on numbers and lent tables.
ghost use Rattle.std.specs.Prelude.{◌≡◌, false, ◌&&◌, ℕ, ◌<◌};
ghost use Rattle.bits.specs.Bits.{bit};
ghost use Rattle.kept.specs.Numbers.{Kept, Ready};
ghost use Rattle.kept.specs.Deciding.{Decided};

use super::grant;
use super::numbers::Numbers;
use super::tables::Tables;
use plan::Plan;

// What a slot reads of the plan in force: the period, and for each domain the caps of what it reclaims and of its writebacks.
#[derive(Clone, Copy)]
pub struct Limits {
    pub period: u32,
    pub reclaimcap: [u16; 16],
    pub writebackcap: [u16; 16],
}

impl Limits {
    // Those of a plan.
    pub fn of(p: Plan) -> Limits
        ensures { result ≡ record { period = p.period; reclaimcap = p.reclaimcap; writebackcap = p.writebackcap } }
    {
        let Plan {
            period,
            reclaimcap,
            writebackcap,
            ..
        } = p;
        Limits {
            period: u32::from(period),
            reclaimcap,
            writebackcap,
        }
    }
}

// One slot, of offers as a mask of the accesses and one of the writebacks.
pub fn slot(
    f: Numbers,
    limits: &Limits,
    access: u32,
    writeback: u32,
    tables: &mut Tables,
) -> Numbers
    requires access_bound { (access < 131072) × (writeback < 131072) × (f.decided < limits.now.period) }
    requires by_index { (n : ℕ) → (bit access n && bit writeback n) ≡ false }
    requires kept_2 { Kept limits.now.reclaimcap limits.now.writebackcap f tables.old }
    requires ready { Ready limits.now.reclaimcap limits.now.writebackcap f tables.old }
    ensures kept { Kept limits.now.reclaimcap limits.now.writebackcap result tables.new }
    ensures decided { Decided limits.now.period access writeback limits.now.reclaimcap limits.now.writebackcap f tables.old result tables.new }
{
    let masks = f.masks;
    let wait = engine::waiting(access, writeback, masks.has, masks.back);
    let blocked = engine::is_blocked(limits.period, f.spoken, wait);
    let passing = engine::passing(wait, access, writeback, masks, f.stock != 0, blocked);
    let picked = engine::pick(passing, f.turn);
    let n = picked.number;
    if n == 17 {
        return grant::rest(f, picked.steps);
    }
    if n == 0 {
        return grant::serve(f, picked.steps);
    }
    grant::give(f, picked, writeback, limits, tables)
}
