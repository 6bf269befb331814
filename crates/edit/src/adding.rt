// Adding a domain to a plan file: two of its records are written.
ghost use Rattle.std.specs.Prelude.{◌≡◌, false, ◌-◌, get_or};
ghost use Rattle.table.specs.Lines.{first_of};
ghost use Rattle.plan.specs.Value.{reserved};
ghost use Rattle.plan.specs.Records.{domain_record};
ghost use Rattle.plan.specs.Walk.{fault_number};
ghost use Rattle.plan.proofs.Laws.Holding.{Fine};
ghost use Rattle.edit.specs.Adding.{asked, domain_table, add_refusal, added};
ghost use Rattle.edit.specs.Faults.{edit_refusal_by};
ghost use Rattle.edit.specs.Inner.{unlisted_in, IsHighest};

use crate::chain::Indices;
use crate::faults::EditFault;
use crate::{chain, records};
use plan::{Domain, Fault, Plan};

// The domain to add, in numbers so wide that nothing is cut.
#[derive(Clone, Copy)]
pub struct NewDomain {
    pub number: u64,
    pub reservation: u64,
    pub reclaimcap: u64,
    pub writebackcap: u64,
    pub writebackreservation: u64,
    pub marked: bool,
}

// What a domain is refused for on being added to a plan that was read: 6, 7, 9, 11 or 10.
fn check_domain(p: Plan, d: NewDomain) -> Result<(), Fault>
    ensures { fault_number result ≡ first_of (domain_table p.period (get_or p.planned (d.number - 1) false) (reserved p) (asked d)) 0 }
{
    if plan::is_outside(16, d.number) {
        return Err(Fault::NoNumber);
    }
    let at = (d.number - 1) as usize;
    if p.planned[at] {
        return Err(Fault::NumberAgain);
    }
    let period = u64::from(p.period);
    if plan::any_above(period, d.reservation, d.reclaimcap, d.writebackcap) {
        return Err(Fault::AbovePeriod);
    }
    if plan::is_above_cap(d.writebackcap, d.writebackreservation) {
        return Err(Fault::AboveCap);
    }
    let sum = u64::from(plan::all_reserved(p));
    if period < sum + (d.reservation + d.writebackreservation) {
        return Err(Fault::Sum);
    }
    Ok(())
}

// The highest record below a count that is not listed, if that is not record 0.
fn highest_free(l: Indices, count: usize) -> Option<usize>
    ensures { IsHighest (unlisted_in l.count l.records) count result }
{
    for k in (1..count).rev() {
        if !chain::is_listed(l, k) {
            return Some(k);
        }
    }
    None
}

// The record of the domain, with link 0: its numbers are in range, and so they fit.
fn new_record(d: NewDomain, period: u16) -> [u8; 16]
    requires { Fine period (asked d) }
    ensures { result ≡ domain_record 0 (asked d) }
{
    let domain = Domain {
        number: d.number as u8,
        reservation: d.reservation as u16,
        reclaimcap: d.reclaimcap as u16,
        writebackcap: d.writebackcap as u16,
        writebackreservation: d.writebackreservation as u16,
        marked: d.marked,
    };
    plan::domain_record(0, domain)
}

// Overwrites the highest record that is not on the chain, and puts it last on the chain.
pub fn add_domain(file: &mut [u8], d: NewDomain) -> Result<(), EditFault>
    ensures value { edit_refusal_by result ≡ add_refusal file.old (asked d) }
    ensures file_after { file.new ≡ added file.old (asked d) }
{
    let p = plan::read(file)?;
    check_domain(p, d)?;
    let l = chain::list_chain(file);
    let Some(k) = highest_free(l, file.len() / 16) else {
        return Err(EditFault::NoRoom);
    };
    let bytes = new_record(d, p.period);
    let q = l.records[l.count];
    records::rewrite(file, q, k as u16, k, bytes);
    Ok(())
}
