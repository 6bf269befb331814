// Leftovers of a plan file: records from 1 up, off the chain, that are not all zero.
ghost use Rattle.std.specs.Prelude.{◌≡◌, not, ◌&&◌, ◌+◌, ◌*◌, ◌≤◌, length};
ghost use Rattle.plan.specs.Value.{IsLowest};
ghost use Rattle.plan.specs.Records.{zeros, record_at, record_count};
ghost use Rattle.plan.specs.Chain.{chain_of};
ghost use Rattle.plan.specs.Reading.{leftover};
ghost use Rattle.plan.specs.Walk.{seen_at};

use crate::records;

// Is a record off the chain and not all zero? (The length is required of the bytes that are lent, as in chain.rt.)
fn is_left(file: &[u8], i: usize, on: bool) -> bool
    requires { 16 * i + 16 ≤ length file.now }
    ensures { result ≡ (not on && not (zeros (record_at file.now i))) }
{
    !on && !records::all_zero(records::record_part(file, i))
}

// The lowest leftover of a file whose chain was walked.
pub(crate) fn lowest_leftover(file: &[u8], seen: [bool; 64]) -> Option<usize>
    requires in_bounds { (16 ≤ length file.now) × (length file.now ≤ 1024) }
    requires seen_value { seen ≡ seen_at (chain_of file.now) }
    ensures { IsLowest (leftover file.now) (record_count file.now) result }
{
    let count = file.len() / 16;
    (1..count).find(|&i| is_left(file, i, seen[i]))
}
