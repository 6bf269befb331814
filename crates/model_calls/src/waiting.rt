// The plan that waits: put into the rows from NEXT on, and moved to those in front when the next period begins. The state and
// the ledger's page keep it alike.
ghost use Rattle.std.specs.Prelude.{◌<◌, ◌≤◌};

use super::cells;

// Whether the plan in the rows from one on would be accepted as a value.
fn accepted(s: &[u64], from: usize) -> bool
    requires { from ≤ 17 }
{
    let period = cells::get(s, from, cells::PERIOD) as u32;
    let told = model_plans::check(period, cells::plan_of(s, from));
    told.number == 0
}

// Whether the plan in force would be accepted, and the one that waits too, if there is one.
pub fn plans_fit(s: &[u64]) -> bool {
    let waits = cells::get(s, cells::NEXT, cells::WAITS) != 0;
    accepted(s, 0) && (!waits || accepted(s, cells::NEXT))
}

// Puts a plan in the place of whatever waits.
pub fn put_waiting(s: &mut [u64], period: u32, domains: [u32; 96]) {
    cells::put(s, cells::NEXT, cells::WAITS, 1);
    cells::put_plan(s, cells::NEXT, period, domains);
}

// Whether a word of the rows in front is the plan's, or an estimate's: a plan that waits has none of these, and its zeros take
// their place.
fn is_plan(row: usize, column: usize) -> bool {
    if row == 0 {
        column == cells::PERIOD
    } else {
        column <= cells::V || column >= cells::MARK
    }
}

// Takes a word from the plan that waits, and leaves 0 there.
fn take_word(s: &mut [u64], row: usize, column: usize) -> u64
    requires { row < 17 }
{
    let word = cells::get(s, cells::NEXT + row, column);
    cells::put(s, cells::NEXT + row, column, 0);
    word
}

// The plan that waits, if there is one, takes force, and none waits behind it.
pub fn take_force(s: &mut [u64]) {
    let waits = cells::get(s, cells::NEXT, cells::WAITS) != 0;
    for k in 0..cells::COUNTS {
        let row = k / cells::COLUMNS;
        let column = k % cells::COLUMNS;
        let word = take_word(s, row, column);
        if waits && is_plan(row, column) {
            cells::put(s, row, column, word);
        }
    }
}
