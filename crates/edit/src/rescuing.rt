// Rescuing a plan file whose chain is broken.
ghost use Rattle.std.specs.Prelude.{◌≡◌, length};
ghost use Rattle.table.specs.Lines.{first_of};
ghost use Rattle.plan.specs.Value.{number};
ghost use Rattle.plan.specs.Reading.{head_table};
ghost use Rattle.plan.proofs.Laws.Heads.{Whole};
ghost use Rattle.edit.specs.Laying.{laid};
ghost use Rattle.edit.specs.Rescue.{kept_count, stays_refused, rescued_by, rescue_answer, rescued};
ghost use Rattle.edit.specs.Inner.{listed_only, TellsStart};

use crate::chain::Indices;
use crate::{chain, records};
use plan::{Fault, Refused};

// Is it a refusal that rescuing tells too?
fn stays_refused(fault: Fault) -> bool
    ensures { result ≡ stays_refused (number fault) }
{
    matches!(fault, Fault::Length | Fault::Period | Fault::Head)
}

// What a file is refused for on rescuing: what reading tells of its length and record 0.
fn check_start(file: &[u8]) -> Result<(), Refused>
    ensures { TellsStart file.now result }
{
    match plan::read(file) {
        Err(refused) if stays_refused(refused.fault) => Err(refused),
        _ => Ok(()),
    }
}

// How many records of the chain are kept: the last falls while the reservations sum above the period.
fn kept_count(file: &[u8]) -> usize
    requires { first_of (head_table file.now) 0 ≡ 0 }
    ensures { result ≡ kept_count file.now }
{
    let period = u32::from(plan::u16_at(file, 0));
    let sums = plan::sums_told(file);
    for n in (0..sums.records).rev() {
        if sums.told[n] <= period {
            return n + 1;
        }
    }
    0
}

// Zeroes every record that is not listed.
fn zero_others(file: &mut [u8], l: Indices)
    requires { Whole (length file.old) }
    ensures { file.new ≡ laid (listed_only file.old l.count l.records) file.old }
{
    for k in 0..file.len() / 16 {
        if !chain::is_listed(l, k) {
            let at = 16 * k;
            plan::put_record(&mut file[at..at + 16], [0; 16]);
        }
    }
}

// Ends the chain at the first link that is refused, and earlier where the reservations do not fit; zeroes the records off it.
// Answers how many records of the chain are kept.
pub fn rescue(file: &mut [u8]) -> Result<usize, Refused>
    ensures value { rescued_by result ≡ rescue_answer file.old }
    ensures file_after { file.new ≡ rescued file.old }
{
    check_start(file)?;
    let kept = kept_count(file);
    let l = chain::list_first(file, kept);
    records::set_link(file, l.records[l.count], 0);
    zero_others(file, l);
    Ok(kept)
}
