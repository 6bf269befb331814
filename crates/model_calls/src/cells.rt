// Flat words in lent slices, in rows of fourteen: row 0 for the period and rows 1 to 16 for the domains; then, in a state and
// in the ledger's page, as many rows for the plan that waits, of which the columns to V and MARK are used.
ghost use Rattle.std.specs.Prelude.{◌<◌, ◌≤◌};

use model_plans::words;

pub const ROWS: usize = 34;

pub const COLUMNS: usize = 14;

// The first row of the plan that waits, and the words before it: counts have no others.
pub const NEXT: usize = 17;

pub const COUNTS: usize = 238;

// The columns of row 0.
pub const PERIOD: usize = 0;

pub const DECIDED: usize = 1;

pub const CLOSED: usize = 2;

pub const IDLE: usize = 3;

pub const BEST: usize = 4;

pub const STOCK: usize = 5;

pub const TURN: usize = 6;

pub const STEPS: usize = 7;

// The columns of row NEXT are PERIOD, and whether a plan waits.
pub const WAITS: usize = 1;

// The columns of a domain's row; V is the writeback reservation, WRITECLAIM the writeback claim.
pub const PRESENT: usize = 0;

pub const Q: usize = 1;

pub const R: usize = 2;

pub const W: usize = 3;

pub const V: usize = 4;

pub const CLAIM: usize = 5;

pub const RESERVED: usize = 6;

pub const RECLAIMED: usize = 7;

pub const YIELDED: usize = 8;

pub const WRITEBACKS: usize = 9;

pub const WRITECLAIM: usize = 10;

pub const MARK: usize = 11;

// The kind of an estimate, and its bits.
pub const KIND: usize = 12;

pub const BITS: usize = 13;

// The place of a word; none behind the rows or the columns.
fn place(row: usize, column: usize) -> Option<usize> {
    if row < ROWS && column < COLUMNS {
        Some(COLUMNS * row + column)
    } else {
        None
    }
}

// A word with all its bits, 0 where the slice has none.
pub fn whole(s: &[u64], row: usize, column: usize) -> u64 {
    place(row, column).map_or(0, |at| s.get(at).copied().unwrap_or(0))
}

// A word that is a number. What no 32 bits hold reads as the most that they hold: no number of a state that adds up comes
// near it, and sums of such words are plain.
pub fn get(s: &[u64], row: usize, column: usize) -> u64
    ensures { result < 4294967296 }
{
    whole(s, row, column).min(u64::from(u32::MAX))
}

pub fn put(s: &mut [u64], row: usize, column: usize, value: u64) {
    if let Some(at) = place(row, column)
        && at < s.len()
    {
        s[at] = value;
    }
}

pub fn add(s: &mut [u64], row: usize, column: usize, amount: u64) {
    let now = get(s, row, column);
    put(s, row, column, now.wrapping_add(amount));
}

pub fn take(s: &mut [u64], row: usize, column: usize, amount: u64) {
    let now = get(s, row, column);
    put(s, row, column, now.wrapping_sub(amount));
}

// The sum of a column over the sixteen domains.
pub fn total(s: &[u64], column: usize) -> u64
    ensures { result < 68719476736 }
{
    let mut sum = 0;
    for n in 1..17 {
        sum += get(s, n, column);
    }
    sum
}

// The column of one of a domain's words in a plan.
fn plan_column(which: u32) -> usize
    requires { which < 6 }
{
    if which == 5 { MARK } else { which as usize }
}

// Puts a plan's words into the rows from one on, row 0 or NEXT: the period, and the columns up to V and MARK.
// `from` is required to have its rows inside the words: a type for it would be made and taken apart at each use.
pub fn put_plan(s: &mut [u64], from: usize, period: u32, domains: [u32; 96])
    requires { from ≤ 17 }
{
    put(s, from, PERIOD, u64::from(period));
    for k in 0u32..96 {
        let row = from + (k / 6 + 1) as usize;
        let word = words::word(domains, k / 6 + 1, k % 6);
        put(s, row, plan_column(k % 6), u64::from(word));
    }
}

// The words of the domains of such a plan, read back.
pub fn plan_of(s: &[u64], from: usize) -> [u32; 96]
    requires { from ≤ 17 }
{
    let mut domains = [0u32; 96];
    for k in 0u32..96 {
        let row = from + (k / 6 + 1) as usize;
        domains[k as usize] = get(s, row, plan_column(k % 6)) as u32;
    }
    domains
}

// The writeback claim that a domain's other words leave it: V less its writebacks, or 0 if they exceed it.
pub fn write_claim(s: &[u64], n: usize) -> u64 {
    get(s, n, V).saturating_sub(get(s, n, WRITEBACKS))
}

// Starts a domain's period: its claims from Q and V, and the other words of the period at 0; nothing is foreseen yet.
fn start_domain(s: &mut [u64], n: usize) {
    let quota = get(s, n, Q);
    put(s, n, CLAIM, quota);
    for column in [RESERVED, RECLAIMED, YIELDED, WRITEBACKS] {
        put(s, n, column, 0);
    }
    let writes = write_claim(s, n);
    put(s, n, WRITECLAIM, writes);
}

fn start_domains(s: &mut [u64]) {
    for n in 1..17 {
        start_domain(s, n);
    }
}

// Starts a period: all words of the period but the turn.
pub fn start_period(s: &mut [u64]) {
    for column in [DECIDED, IDLE, BEST, STOCK, STEPS] {
        put(s, 0, column, 0);
    }
    start_domains(s);
}

// Sets every word to 0.
pub fn clear(s: &mut [u64]) {
    s.fill(0);
}
