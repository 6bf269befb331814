// What has to hold of a rescued file by the document's words, however it was made; and rescues counted.
ghost use Rattle.std.specs.Prelude.{◌<◌, ◌≤◌, IfSome};

use super::compare::{end_of, framed};
use super::report;
use model_edits::chain;
use std::io;
use trial_kit::counts;

// Whether both readers accept a file, with its period as it was and so many records on the chain.
fn accepted(before: &[u8], after: &[u8], kept: u32) -> bool {
    let m = model_plans::read(after);
    let period = model_plans::record::number(before, 0, 0);
    let by_model = m.number == 0 && m.period == period && chain::records(after) == kept;
    match plan::read(after) {
        Ok(p) => by_model && u32::from(p.period) == period,
        Err(_) => false,
    }
}

// Whether the library's rescue of a file keeps every byte, and tells that it keeps so many records.
fn rescued_already(file: &[u8], kept: u32) -> bool {
    let mut all = framed(file);
    let told = edit::rescue(&mut all[32..end_of(file)]);
    told == Ok(kept as usize) && all == framed(file)
}

// Whether a file that was accepted has all its bytes.
fn left_alone(before: &[u8], after: &[u8]) -> bool {
    model_plans::read(before).number != 0 || before == after
}

// Whether a file that was rescued holds what it has to.
pub fn holds(before: &[u8], after: &[u8], kept: u32) -> bool {
    accepted(before, after, kept) && rescued_already(after, kept) && left_alone(before, after)
}

// The counts of rescues are lent behind those of `seen`, in the order of the names below: four of refusals, ten of what reading
// told, seven rows of 17 of where the link was cut, a row of records that fell, one of records kept, and five of what was done.
const FIRST: usize = 92;

const READ: usize = 96;

const CUT: usize = 106;

const FELL: usize = 225;

const KEPT: usize = 242;

const DONE: usize = 259;

// The place of what reading tells: 0, or 4 to 12.
fn reading(number: u32) -> usize
    ensures { result ≤ 9 }
{
    match number {
        4..=12 => (number - 3) as usize,
        _ => 0,
    }
}

// The row of a fault of the chain, 4 to 9 and 11.
fn fault_row(number: u32) -> Option<usize>
    ensures { IfSome result (λ row. row < 7) }
{
    match number {
        4..=9 => Some((number - 4) as usize),
        11 => Some(6),
        _ => None,
    }
}

// What was done, in the order of the printed row; leftovers zeroed alone are `Leftovers`.
#[derive(Clone, Copy)]
enum Done {
    Cut,
    Fell,
    Both,
    Leftovers,
    Nothing,
}

fn came_to(cut: bool, fell: bool, same: bool) -> Done {
    match (cut, fell) {
        (true, false) => Done::Cut,
        (false, true) => Done::Fell,
        (true, true) => Done::Both,
        (false, false) => if same { Done::Nothing } else { Done::Leftovers },
    }
}

fn small(x: u32) -> usize
    ensures { result ≤ 16 }
{
    (x % 17) as usize
}

// A file that was rescued: what reading told, where its link was cut, how many records fell and were kept.
fn count_rescued(before: &[u8], after: &[u8], kept: u32, seen: &mut [u32]) {
    let a = model_plans::read(before);
    let earlier = model_plans::read_with_leftovers(before);
    let taken = chain::records(before);
    let fell = taken.wrapping_sub(kept);
    let cut = fault_row(earlier.number);
    counts::raise(seen, READ + reading(a.number), 1);
    if let Some(row) = cut {
        counts::raise(seen, CUT + 17 * row + small(taken), 1);
    }
    counts::raise(seen, FELL + small(fell), 1);
    counts::raise(seen, KEPT + small(kept), 1);
    let way = came_to(cut.is_some(), fell > 0, before == after);
    counts::raise(seen, DONE + way as usize, 1);
}

// Counts a rescue, given the file before and after, and what was told.
pub fn count(before: &[u8], after: &[u8], number: u32, kept: u32, seen: &mut [u32]) {
    counts::raise(seen, FIRST + (number % 4) as usize, 1);
    if number == 0 {
        count_rescued(before, after, kept, seen);
    }
}

pub fn lines(rt: &impl Print, seen: &[u32]) -> io::Result<()> {
    report::rows(
        rt,
        seen,
        FIRST,
        b"rescued, and refused with 1, 2, 3\n\
        rescued where reading told 0, 4 to 12\n\
        a link cut for 4 after 0 to 16 records\n\
        a link cut for 5 after 0 to 16 records\n\
        a link cut for 6 after 0 to 16 records\n\
        a link cut for 7 after 0 to 16 records\n\
        a link cut for 8 after 0 to 16 records\n\
        a link cut for 9 after 0 to 16 records\n\
        a link cut for 11 after 0 to 16 records\n\
        0 to 16 records fell\n\
        0 to 16 records kept\n\
        a link cut, records fallen, both, leftovers zeroed alone, nothing done\n",
        &[4, 10, 17, 17, 17, 17, 17, 17, 17, 17, 17, 5],
    )
}
