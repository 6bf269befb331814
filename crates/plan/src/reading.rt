// Reading a plan file: the refusals 1 to 12 in table order, or the plan; and by the earlier rule, which takes leftovers.
ghost use Rattle.std.specs.Prelude.{◌≡◌};
ghost use Rattle.table.specs.Lines.{first_of};
ghost use Rattle.plan.specs.Reading.{no_length, head_table, read_with_leftovers, read_plan, reading_by};
ghost use Rattle.plan.specs.Walk.{fault_number, walked_by, way_of, walked_reading};

use crate::chain::Way;
use crate::refusal::{Fault, Refused};
use crate::value::Plan;
use crate::{chain, leftovers, records, value};

// Is it the length of no plan file?
fn no_length(n: usize) -> bool
    ensures { result ≡ no_length n }
{
    n == 0 || (n % 16 != 0 || 1024 < n)
}

// What the file's length or record 0 is refused for: 1 to 3.
fn check_head(file: &[u8]) -> Result<(), Fault>
    ensures { fault_number result ≡ first_of (head_table file.now) 0 }
{
    if no_length(file.len()) {
        return Err(Fault::Length);
    }
    let period = records::u16_at(file, 0);
    if value::is_outside(4096, u64::from(period)) {
        return Err(Fault::Period);
    }
    if !records::all_zero(&file[4..16]) {
        return Err(Fault::Head);
    }
    Ok(())
}

// The way to the chain's end, for any bytes: length and record 0, then the chain.
pub(crate) fn way(file: &[u8]) -> Way
    ensures { walked_by result ≡ way_of file.now }
{
    match check_head(file) {
        Err(fault) => chain::not_walked(fault),
        Ok(()) => chain::walk(file),
    }
}

// What it comes to by the earlier rule: the refusal met on the way, 10 at the chain's end, or the plan.
fn walked_reading(w: Way) -> Result<Plan, Refused>
    ensures { reading_by result ≡ walked_reading (walked_by w) }
{
    w.ended?;
    let plan = w.gathered.plan;
    if u32::from(plan.period) < w.gathered.sum {
        return Err(Refused {
            fault: Fault::Sum,
            place: 0,
        });
    }
    Ok(plan)
}

// The plan of a file by the earlier rule, which takes leftovers, for any bytes.
pub fn read_with_leftovers(file: &[u8]) -> Result<Plan, Refused>
    ensures { reading_by result ≡ read_with_leftovers file.now }
{
    walked_reading(way(file))
}

// The plan of a file, for any bytes.
pub fn read(file: &[u8]) -> Result<Plan, Refused>
    ensures { reading_by result ≡ read_plan file.now }
{
    let w = way(file);
    let plan = walked_reading(w)?;
    if let Some(i) = leftovers::lowest_leftover(file, w.seen) {
        return Err(Refused {
            fault: Fault::Leftover,
            place: i as u16,
        });
    }
    Ok(plan)
}
