// The chain of a plan file: each index followed is checked, and then its record.
ghost use Rattle.std.specs.Prelude.{◌≡◌, false, [], ◌++◌, ◌-◌, ◌/◌, ◌<◌, ◌≤◌, length, get_or};
ghost use Rattle.table.specs.Lines.{first_of};
ghost use Rattle.plan.specs.Records.{record_at};
ghost use Rattle.plan.specs.Chain.{unlisted, link_table, record_table};
ghost use Rattle.plan.specs.Value.{no_domains, number};
ghost use Rattle.plan.specs.Walk.{sums_held, with_sum, with_record, fault_number, walked_by, walked_of, not_walked};

use crate::refusal::{Fault, Refused};
use crate::value::{Domain, Plan};
use crate::{records, value};

// The sums that the walk tells: how many records it took, and after each of them the sum of what the domains met so far
// reserve. Zeros stand behind the last: there is no heap here to keep a Vec.
#[derive(Clone, Copy)]
pub struct Sums {
    pub records: usize,
    pub told: [u32; 16],
}

// What the walk has gathered from the records taken: the plan of their domains, the last sum told, and all sums told.
#[derive(Clone, Copy)]
pub struct Gathered {
    pub plan: Plan,
    pub sum: u32,
    pub sums: Sums,
}

// What following the chain came to: how it ended, at its end or with a refusal at the index followed; what was gathered
// before; and which records were taken.
#[derive(Clone, Copy)]
pub struct Way {
    pub ended: Result<(), Refused>,
    pub gathered: Gathered,
    pub seen: [bool; 64],
}

// (A record stays a slice whose length is required, here and below: the public `record_part` answers one, of the file that is lent.)
// Is an unlisted byte of a domain record not zero, or the mark's byte above 1?
fn any_unlisted(b: &[u8]) -> bool
    requires { length b.now ≡ 16 }
    ensures { result ≡ unlisted b.now }
{
    1 < b[3] || !records::all_zero(&b[12..16])
}

// What a record is refused for by itself: 6 to 9 or 11.
fn check_record(b: &[u8], period: u16, planned: [bool; 16]) -> Result<(), Fault>
    requires { length b.now ≡ 16 }
    ensures { fault_number result ≡ first_of (record_table period (get_or planned (get_or b.now 2 0 - 1) false) b.now) 0 }
{
    let number = b[2];
    if value::is_outside(16, u64::from(number)) {
        return Err(Fault::NoNumber);
    }
    if planned[usize::from(number - 1)] {
        return Err(Fault::NumberAgain);
    }
    if any_unlisted(b) {
        return Err(Fault::Unlisted);
    }
    let d = records::domain_in(b);
    let w = u64::from(d.writebackcap);
    if value::any_above(
        u64::from(period),
        u64::from(d.reservation),
        u64::from(d.reclaimcap),
        w,
    ) {
        return Err(Fault::AbovePeriod);
    }
    if value::is_above_cap(w, u64::from(d.writebackreservation)) {
        return Err(Fault::AboveCap);
    }
    Ok(())
}

// What following index i is refused for: 4 to 9 or 11. `seen` tells the records on the chain, `planned` the numbers met.
fn follow(
    file: &[u8],
    period: u16,
    seen: [bool; 64],
    planned: [bool; 16],
    i: usize,
) -> Result<(), Fault>
    requires { length file.now ≤ 1024 }
    ensures { fault_number result ≡ first_of (link_table (length file.now / 16) (get_or seen i false) i ++ record_table period (get_or planned (get_or (record_at file.now i) 2 0 - 1) false) (record_at file.now i)) 0 }
{
    if file.len() / 16 <= i {
        return Err(Fault::NoRecord);
    }
    if seen[i] {
        return Err(Fault::RecordAgain);
    }
    check_record(records::record_part(file, i), period, planned)
}

// No sum told yet.
fn no_sums() -> Sums
    ensures { result ≡ sums_held [] }
{
    Sums {
        records: 0,
        told: [0; 16],
    }
}

// One sum more is told.
fn with_sum(s: Sums, sum: u32) -> Sums
    requires { s.records < 16 }
    ensures { result ≡ with_sum s sum }
{
    let at = s.records;
    let mut next = s;
    next.told[at] = sum;
    next.records = at + 1;
    next
}

// Nothing gathered yet.
fn nothing_gathered(period: u16) -> Gathered
    ensures { result ≡ record { plan = no_domains period; sum = 0; sums = sums_held [] } }
{
    let plan = value::no_domains(period);
    let sums = no_sums();
    Gathered { plan, sum: 0, sums }
}

// One record is taken: the plan with its domain, and the sum with what the domain reserves. Fifteen domains before it
// reserve at most 15 * 131,070, so the sum cannot wrap.
fn gather(g: Gathered, d: Domain) -> Gathered
    requires le_number { (1 ≤ d.number) × (d.number ≤ 16) }
    requires records_bound { (g.sums.records < 16) × (g.sum ≤ 1966050) }
    ensures { result ≡ with_record g d }
{
    let plan = value::with_domain(g.plan, d);
    let sum = g.sum + value::reserves(d);
    let sums = with_sum(g.sums, sum);
    Gathered { plan, sum, sums }
}

// Nothing followed, since the file's length or record 0 is refused.
pub(crate) fn not_walked(fault: Fault) -> Way
    ensures { walked_by result ≡ not_walked (number fault) }
{
    let ended = Err(Refused { fault, place: 0 });
    let gathered = nothing_gathered(0);
    let seen = [false; 64];
    Way {
        ended,
        gathered,
        seen,
    }
}

// Follows the chain of a file whose length and record 0 are in order. A `while`, since it goes along the links and not
// along an index.
pub(crate) fn walk(file: &[u8]) -> Way
    requires { (16 ≤ length file.now) × (length file.now ≤ 1024) }
    ensures { walked_by result ≡ walked_of file.now }
{
    let period = records::u16_at(file, 0);
    let mut gathered = nothing_gathered(period);
    let mut seen = [false; 64];
    let mut i = records::u16_at(file, 2);
    while i != 0 {
        let at = usize::from(i);
        let planned = gathered.plan.planned;
        if let Err(fault) = follow(file, period, seen, planned, at) {
            let ended = Err(Refused { fault, place: i });
            return Way {
                ended,
                gathered,
                seen,
            };
        }
        let b = records::record_part(file, at);
        let d = records::domain_in(b);
        gathered = gather(gathered, d);
        seen[at] = true;
        i = records::u16_at(b, 0);
    }
    Way {
        ended: Ok(()),
        gathered,
        seen,
    }
}
