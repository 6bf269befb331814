// The chain of a plan file as a list of records.
ghost use Rattle.std.specs.Prelude.{◌≡◌, ◌+◌, ◌*◌, ◌≤◌, length, take};
ghost use Rattle.table.specs.Members.{has};
ghost use Rattle.table.specs.Lines.{first_of};
ghost use Rattle.plan.specs.Chain.{link_of, chain_of};
ghost use Rattle.plan.specs.Reading.{head_table};
ghost use Rattle.edit.specs.Inner.{Lists};

// Record 0 and records of a chain, in chain order: the first `count + 1` of the seventeen. An array with its count, since
// there is no heap here to keep a Vec.
#[derive(Clone, Copy)]
pub struct Indices {
    pub count: usize,
    pub records: [usize; 17],
    ghost few: { count ≤ 16 },
}

// The link of record k. (That the file is as long as its records is required here and in the files beside this one, of bytes that a
// caller lends and keeps: a type for them would have to be made of each part anew.)
pub(crate) fn link_of(file: &[u8], k: usize) -> u16
    requires { 16 * k + 16 ≤ length file.now }
    ensures { result ≡ link_of file.now k }
{
    if k == 0 {
        return plan::u16_at(file, 2);
    }
    plan::u16_at(plan::record_part(file, k), 0)
}

// The first `count` records of the chain. The walk has told that they are there, so the links are followed without a check.
pub(crate) fn list_first(file: &[u8], count: usize) -> Indices
    requires { (16 ≤ length file.now) × (count ≤ length (chain_of file.now)) }
    ensures { Lists (take count (chain_of file.now)) result.count result.records }
{
    let mut records = [0; 17];
    for k in 0..count {
        records[k + 1] = usize::from(link_of(file, records[k]));
    }
    Indices { count, records }
}

// The records of the chain of a file whose length and record 0 are in order: all of them, or those before the refusal.
pub(crate) fn list_chain(file: &[u8]) -> Indices
    requires { first_of (head_table file.now) 0 ≡ 0 }
    ensures { Lists (chain_of file.now) result.count result.records }
{
    let told = plan::sums_told(file);
    list_first(file, told.records)
}

// Is record k among those listed? Record 0 is.
pub(crate) fn is_listed(l: Indices, k: usize) -> bool
    ensures { result ≡ has k (take (l.count + 1) l.records) }
{
    l.records[..=l.count].contains(&k)
}
