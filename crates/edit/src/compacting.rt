// Compacting a plan file: record 0 and the chain's records are gathered, and then each goes through the part of the file that
// it fills.
ghost use Rattle.std.specs.Prelude.{◌≡◌, cond, ◌≤◌, leb, length};
ghost use Rattle.plan.specs.Value.{refusal_by};
ghost use Rattle.plan.specs.Records.{record_at};
ghost use Rattle.plan.specs.Chain.{chain_of};
ghost use Rattle.plan.specs.Writing.{next_index};
ghost use Rattle.plan.proofs.Laws.Heads.{Whole};
ghost use Rattle.edit.specs.Laying.{laid, blank, relinked};
ghost use Rattle.edit.specs.Compaction.{moved_record, compact_refusal, compacted};
ghost use Rattle.edit.specs.Inner.{Lists, Gathers};

use crate::chain::Indices;
use crate::{chain, records};
use plan::Refused;

// Record 0 and the records of the chain, one after the other.
fn gather(file: &[u8], l: Indices) -> [u8; 272]
    requires { (16 ≤ length file.now) × Lists (chain_of file.now) l.count l.records }
    ensures { Gathers file.now l.count result }
{
    let mut store = [0; 272];
    for k in 0..l.count + 1 {
        let bytes = records::copy_record(plan::record_part(file, l.records[k]));
        let at = 16 * k;
        plan::put_record(&mut store[at..at + 16], bytes);
    }
    store
}

// What record k becomes.
fn moved_bytes(store: &[u8], n: usize, k: usize) -> [u8; 16]
    requires { (n ≤ 16) × (k ≤ 64) × (length store.now ≡ 272) }
    ensures { result ≡ cond (leb k n) (relinked k (next_index n k) (record_at store.now k)) blank }
{
    if k <= n {
        let b = records::copy_record(plan::record_part(store, k));
        let next = plan::next_index(n, k);
        return records::relink(b, k, next);
    }
    [0; 16]
}

// Writes every record of the file.
fn move_records(file: &mut [u8], store: [u8; 272], n: usize)
    requires { (n ≤ 16) × Whole (length file.old) × Gathers file.old n store }
    ensures { file.new ≡ laid (moved_record file.old) file.old }
{
    for k in 0..file.len() / 16 {
        let bytes = moved_bytes(&store, n, k);
        let at = 16 * k;
        plan::put_record(&mut file[at..at + 16], bytes);
    }
}

// Moves the chain's records to the front in chain order, relinks them and zeroes the others.
pub fn compact(file: &mut [u8]) -> Result<(), Refused>
    ensures value { refusal_by result ≡ compact_refusal file.old }
    ensures file_after { file.new ≡ compacted file.old }
{
    plan::read_with_leftovers(file)?;
    let l = chain::list_chain(file);
    let store = gather(file, l);
    move_records(file, store, l.count);
    Ok(())
}
