// One edit by the library and by the model, each on bytes lent out of a larger buffer.
ghost use Rattle.std.specs.Prelude.{◌≤◌, ◌+◌, length};

use super::{rescued, seen};
use edit::{EditFault, NewDomain};
use model_edits::{Told, Wanted};
use model_plans::words;
use trial_files::calls::Call;
use trial_kit::tally::Verdict;
use trial_kit::{bytes, values};

// What stands before a lent file and behind it.
const GUARD: u8 = 165;

// The file between 32 guard bytes before it and as many or more behind.
pub fn framed(file: &[u8]) -> [u8; 1104] {
    let mut all = [GUARD; 1104];
    let end = end_of(file);
    all[32..end].copy_from_slice(&file[..end - 32]);
    all
}

// Where a file ends in its frame.
pub fn end_of(file: &[u8]) -> usize
    ensures { (32 ≤ result) × (result ≤ 32 + length file.now) × (result ≤ 1072) }
{
    32 + file.len().min(1040)
}

fn wanted(d: NewDomain) -> Wanted {
    Wanted {
        number: d.number,
        q: d.reservation,
        r: d.reclaimcap,
        w: d.writebackcap,
        v: d.writebackreservation,
        mark: d.marked,
    }
}

// What is told of an edit: its refusal, or 0, and its place, and how many records a rescue kept; 0 of the other edits.
#[derive(Clone, Copy, PartialEq, Eq)]
struct Answered {
    number: u32,
    place: u32,
    kept: u64,
}

impl From<Told> for Answered {
    fn from(m: Told) -> Answered {
        Answered {
            number: m.number,
            place: m.place,
            kept: u64::from(m.kept),
        }
    }
}

// How many records the library tells that it kept, or what it refuses the edit for.
fn library_edits(file: &mut [u8], c: Call) -> Result<usize, EditFault> {
    match c {
        Call::Drop(number) => edit::drop_domain(file, number)?,
        Call::Add(d) => edit::add_domain(file, d)?,
        Call::Compact => edit::compact(file)?,
        Call::Rescue => return Ok(edit::rescue(file)?),
    }
    Ok(0)
}

fn library_does(file: &mut [u8], c: Call) -> Answered {
    match library_edits(file, c) {
        Ok(kept) => Answered {
            number: 0,
            place: 0,
            kept: kept as u64,
        },
        Err(fault) => Answered {
            number: u32::from(fault.number()),
            place: u32::from(fault.place()),
            kept: 0,
        },
    }
}

fn model_does(file: &mut [u8], c: Call) -> Told {
    match c {
        Call::Drop(number) => model_edits::drop_domain(file, number),
        Call::Add(d) => model_edits::add_domain(file, wanted(d)),
        Call::Compact => model_edits::compact(file),
        Call::Rescue => model_edits::rescue(file),
    }
}

fn word(x: u64) -> u32 {
    (x % 4294967296) as u32
}

fn with_added(domains: [u32; 96], d: NewDomain) -> [u32; 96] {
    let n = word(d.number);
    let q = word(d.reservation);
    let r = word(d.reclaimcap);
    let w = word(d.writebackcap);
    let v = word(d.writebackreservation);
    let with = words::with_domain(domains, n, q, r, w, v);
    words::with_mark(with, n, u32::from(d.marked))
}

// Zeros in the place of a domain of 1 to 16.
fn with_dropped(domains: [u32; 96], number: u64) -> [u32; 96] {
    let mut after = domains;
    let at = ((number % 17 + 15) % 16 * 6) as usize;
    after[at..at + 6].fill(0);
    after
}

// The words due after an edit that is not refused.
fn words_due(domains: [u32; 96], c: Call) -> [u32; 96] {
    match c {
        Call::Drop(number) => with_dropped(domains, number),
        Call::Add(d) => with_added(domains, d),
        Call::Compact | Call::Rescue => domains,
    }
}

// Whether both readers accept a file and read this period and these words.
fn reads(file: &[u8], period: u32, domains: [u32; 96]) -> bool {
    let m = model_plans::read(file);
    let by_model = m.number == 0 && m.period == period && m.domains == domains;
    match plan::read(file) {
        Ok(p) => by_model && u32::from(p.period) == period && values::words(p) == domains,
        Err(_) => false,
    }
}

// Whether a record differs in two files.
fn differs(before: &[u8], after: &[u8], record: u32) -> bool {
    (0..16).any(|offset| {
        let at = bytes::place(record, offset);
        bytes::get(before, at) != bytes::get(after, at)
    })
}

// In how many records two files differ.
fn changed(before: &[u8], after: &[u8]) -> usize {
    (0..65)
        .filter(|&record| differs(before, after, record))
        .count()
}

// Whether the library's compaction takes a file and keeps every byte.
fn compact_already(file: &[u8]) -> bool {
    let mut all = framed(file);
    let told = edit::compact(&mut all[32..end_of(file)]);
    told.is_ok() && all == framed(file)
}

// Whether reading refuses a file that a rescue refused, with the same number.
fn still_refused(file: &[u8], c: Call, m: Told) -> bool {
    match c {
        Call::Rescue => model_plans::read(file).number == m.number && m.number <= 3,
        _ => true,
    }
}

// Whether a file reads as is due of an edit, given the file before.
fn reads_due(before: &[u8], after: &[u8], c: Call) -> bool {
    let a = model_plans::read_with_leftovers(before);
    reads(after, a.period, words_due(a.domains, c))
}

// Whether a file holds after an edit what it has to: every byte as before where it was refused, what a rescue has to leave, and
// else the plan due, with two records changed at most, or none by a further compaction.
fn holds(before: &[u8], after: &[u8], c: Call, m: Told) -> bool {
    if m.number != 0 {
        return before == after && still_refused(after, c, m);
    }
    match c {
        Call::Rescue => rescued::holds(before, after, m.kept),
        Call::Compact => compact_already(after) && reads_due(before, after, c),
        _ => changed(before, after) <= 2 && reads_due(before, after, c),
    }
}

// What the model tells of an edit, with its place and the records kept, and whether the library tells and does the same.
#[derive(Clone, Copy)]
pub struct Outcome {
    pub verdict: Verdict,
    pub place: u32,
    pub kept: u32,
}

// A file that the library has edited where it was lent out of a larger buffer, and what it told.
#[derive(Clone, Copy)]
struct Edited {
    told: Answered,
    all: [u8; 1104],
}

fn made(file: &[u8], c: Call) -> Edited {
    let mut all = framed(file);
    let told = library_does(&mut all[32..end_of(file)], c);
    Edited { told, all }
}

// Whether the library told and left the same as the model, which left the file, with no byte changed around it.
fn alike(l: Edited, m: Told, file: &[u8]) -> bool {
    l.told == Answered::from(m) && l.all == framed(file)
}

// Tries an edit: the library on a file lent out of a larger buffer, the model on the file itself.
pub fn tried(file: &mut [u8], c: Call, seen: &mut [u32]) -> Outcome {
    let old = framed(file);
    let before = &old[32..end_of(file)];
    let l = made(file, c);
    let m = model_does(file, c);
    let right = holds(before, file, c, m);
    seen::count(before, file, c, m, seen);
    Outcome {
        verdict: Verdict {
            number: m.number,
            same: alike(l, m, file) && right,
        },
        place: m.place,
        kept: m.kept,
    }
}
