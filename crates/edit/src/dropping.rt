// Dropping a domain from a plan file: two of its records are written.
ghost use Rattle.std.specs.Prelude.{◌≡◌, ◌+◌, ◌*◌, ◌≤◌, length};
ghost use Rattle.plan.specs.Records.{number_at};
ghost use Rattle.plan.specs.Chain.{chain_of};
ghost use Rattle.edit.specs.Dropping.{numbers_in, drop_refusal, dropped};
ghost use Rattle.edit.specs.Faults.{edit_refusal_by};
ghost use Rattle.edit.specs.Inner.{Lists, IsPlace};

use crate::chain::Indices;
use crate::faults::EditFault;
use crate::{chain, records};

// The domain number that record i states.
fn number_at(file: &[u8], i: usize) -> u64
    requires { 16 * i + 16 ≤ length file.now }
    ensures { result ≡ number_at file.now i }
{
    u64::from(plan::record_part(file, i)[2])
}

// How many records stand on the chain before that of a domain, if it is on the chain.
fn place_of(file: &[u8], l: Indices, number: u64) -> Option<usize>
    requires { (16 ≤ length file.now) × Lists (chain_of file.now) l.count l.records }
    ensures { IsPlace number (numbers_in file.now) result }
{
    for k in 0..l.count {
        if number_at(file, l.records[k + 1]) == number {
            return Some(k);
        }
    }
    None
}

// Joins the chain over the record of a domain and zeroes it.
pub fn drop_domain(file: &mut [u8], number: u64) -> Result<(), EditFault>
    ensures value { edit_refusal_by result ≡ drop_refusal file.old number }
    ensures file_after { file.new ≡ dropped file.old number }
{
    plan::read(file)?;
    let l = chain::list_chain(file);
    let Some(p) = place_of(file, l, number) else {
        return Err(EditFault::NotOnChain);
    };
    let i = l.records[p + 1];
    let to = chain::link_of(file, i);
    records::rewrite(file, l.records[p], to, i, [0; 16]);
    Ok(())
}
