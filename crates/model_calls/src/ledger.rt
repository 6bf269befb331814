// The ledger of document 01: fed the plan, the calls, whether each was refused, and the verdicts and steps of a decided slot;
// never a state. It keeps the last plan handed in and not refused, and takes it when the next period begins.
// Its page has the rows and columns of `cells`: in row 0 the period, slots decided, idle, best effort and the sum of the steps
// fed; in a domain's row Q, R, V, claim left, passes on claim, reclaimed, yielded, writebacks, writeback claim left, the mark
// and the estimate worked out from the page's own passes, in column 0 whether it kept asking, and in that of W, which no
// sentence asks for, the writebacks on claim; from row NEXT on the plan kept.
ghost use Rattle.std.specs.Prelude.{◌+◌, ◌<◌, ◌≤◌};

use super::{cells, forecast, verdict, waiting};

const ASKING: usize = 0;

const ONCLAIM: usize = 3;

// What an entry showed: whether it completed a period, how many domains with a reservation above 0 kept asking through
// that period, how many of them had both reservations above 0, how many had yielded by forecast, and how many sentences of
// demand 3 did not hold.
#[derive(Clone, Copy)]
pub struct Entry {
    pub complete: bool,
    pub asked: u32,
    pub twofold: u32,
    pub foreseen: u32,
    pub faults: u32,
}

pub fn begin(page: &mut [u64], period: u32, domains: [u32; 96]) {
    cells::clear(page);
    cells::put_plan(page, 0, period, domains);
    start_page(page);
}

// How many of the domains pass a test.
fn count<F: Fn(usize) -> bool>(passes: F) -> u32
    requires { F.IsAlwaysCallable passes }
    ensures { result ≤ 16 }
{
    let mut count = 0;
    for n in 1..17 {
        count += u32::from(passes(n));
    }
    count
}

// Enters a yield of k: from the claim left to the yielded.
fn move_claim(page: &mut [u64], n: usize, k: u64) {
    cells::take(page, n, cells::CLAIM, k);
    cells::add(page, n, cells::YIELDED, k);
}

// Begins a period, and enters what each domain yields by forecast.
fn start_page(page: &mut [u64]) {
    cells::start_period(page);
    for n in 1..17 {
        cells::put(page, n, ASKING, 1);
        cells::put(page, n, ONCLAIM, 0);
        let need = forecast::need(page, n);
        let rest = cells::get(page, n, cells::Q).saturating_sub(need);
        move_claim(page, n, rest);
    }
}

// Whether a domain's accesses passed at most Q less what it yielded, and R.
fn within(page: &[u64], n: usize) -> bool {
    let yielded = cells::get(page, n, cells::YIELDED);
    let passes = cells::get(page, n, cells::RESERVED) + cells::get(page, n, cells::RECLAIMED);
    let reservation = cells::get(page, n, cells::Q);
    yielded <= reservation && passes <= reservation - yielded + cells::get(page, n, cells::R)
}

// The faults of a page at any moment: a domain above its bound, or more reclaimed than yielded.
fn bounds(page: &[u64]) -> u32
    ensures { result ≤ 17 }
{
    let above = cells::total(page, cells::RECLAIMED) > cells::total(page, cells::YIELDED);
    u32::from(above) + count(|n| !within(page, n))
}

// The entry of a call that completes no period.
fn open_entry(page: &[u64], faults: u32) -> Entry
    requires { faults ≤ 3 }
    ensures { result.faults ≤ 20 }
{
    Entry {
        complete: false,
        asked: 0,
        twofold: 0,
        foreseen: 0,
        faults: faults + bounds(page),
    }
}

// A yield of k, as a call.
pub fn enter_yield(page: &mut [u64], refused: bool, domain: u64, k: u64) -> Entry {
    if refused {
        return open_entry(page, 0);
    }
    let n = if domain <= 16 {
        domain as usize
    } else {
        cells::ROWS
    };
    let short = k > cells::get(page, n, cells::CLAIM);
    move_claim(page, n, k);
    open_entry(page, u32::from(short))
}

// A plan handed in: the last one not refused is kept.
pub fn enter_plan(page: &mut [u64], refused: bool, period: u32, domains: [u32; 96]) -> Entry {
    if refused {
        return open_entry(page, 0);
    }
    waiting::put_waiting(page, period, domains);
    open_entry(page, 0)
}

// Whether a domain offers a kind with claim left, or has none left of either.
fn asks(page: &[u64], offers: &[u8], n: usize) -> bool {
    let reads = cells::get(page, n, cells::CLAIM);
    let writes = cells::get(page, n, cells::WRITECLAIM);
    match verdict::offer(offers, n) {
        1 => reads > 0 || writes == 0,
        2 => writes > 0 || reads == 0,
        _ => reads + writes == 0,
    }
}

// Marks the domains that did not ask in a slot, before its entry.
fn mark_asking(page: &mut [u64], offers: &[u8]) {
    for n in 1..17 {
        if !asks(page, offers, n) {
            cells::put(page, n, ASKING, 0);
        }
    }
}

// The first number with verdict 1.
fn first_granted(verdicts: &[u8]) -> Option<usize> {
    (0..17).find(|&n| verdict::offer(verdicts, n) == 1)
}

// Whether a second number has it too.
fn second_granted(verdicts: &[u8]) -> bool {
    (0..17)
        .filter(|&n| verdict::offer(verdicts, n) == 1)
        .nth(1)
        .is_some()
}

// A domain's writeback: on its writeback claim left, or else on neither.
fn enter_writeback(page: &mut [u64], n: usize) {
    cells::add(page, n, cells::WRITEBACKS, 1);
    if cells::get(page, n, cells::WRITECLAIM) > 0 {
        cells::take(page, n, cells::WRITECLAIM, 1);
        cells::add(page, n, ONCLAIM, 1);
    }
}

// A domain's access: on its claim left, or else reclaimed.
fn enter_access(page: &mut [u64], n: usize) {
    if cells::get(page, n, cells::CLAIM) > 0 {
        cells::take(page, n, cells::CLAIM, 1);
        cells::add(page, n, cells::RESERVED, 1);
    } else {
        cells::add(page, n, cells::RECLAIMED, 1);
    }
}

// Enters verdict 1 at a number, or at none.
fn enter_grant(page: &mut [u64], offers: &[u8], granted: Option<usize>) {
    match granted {
        None => cells::add(page, 0, cells::IDLE, 1),
        Some(0) => cells::add(page, 0, cells::BEST, 1),
        Some(n) if verdict::offer(offers, n) == 2 => enter_writeback(page, n),
        Some(n) => enter_access(page, n),
    }
}

// Whether a word of the page is told: idle, best effort and the sum of steps, and a domain's passes, reclaimed, yielded and
// writebacks.
fn is_told(row: usize, column: usize) -> bool {
    if row > 0 {
        return column >= cells::RESERVED && column <= cells::WRITEBACKS;
    }
    matches!(column, cells::IDLE | cells::BEST | cells::STEPS)
}

// What is told for a word of the page where a period is complete.
fn count_due(page: &[u64], k: usize, complete: bool) -> u64 {
    let row = k / cells::COLUMNS;
    let column = k % cells::COLUMNS;
    if complete && is_told(row, column) {
        cells::get(page, row, column)
    } else {
        0
    }
}

// Whether counts are told just where a period completes, and are the page's.
fn counts_agree(page: &[u64], complete: bool, told: bool, counts: &[u64]) -> bool {
    told == complete
        && (0..cells::COUNTS).all(|k| {
            cells::get(counts, k / cells::COLUMNS, k % cells::COLUMNS)
                == count_due(page, k, complete)
        })
}

// What a completed period comes to: how many domains with a reservation kept asking, how many with both, how many that had
// yielded by forecast, and how many of those that kept asking did not use up both claims.
#[derive(Drop)]
struct Shares {
    asked: u32,
    twofold: u32,
    foreseen: u32,
    faults: u32,
}

// Whether a domain passed on claim exactly Q less what it yielded, and wrote back on claim exactly V.
fn used_up(page: &[u64], n: usize) -> bool {
    let reads = cells::get(page, n, cells::RESERVED) + cells::get(page, n, cells::YIELDED);
    reads == cells::get(page, n, cells::Q)
        && cells::get(page, n, ONCLAIM) == cells::get(page, n, cells::V)
}

fn kept_asking(page: &[u64], n: usize) -> bool {
    cells::get(page, n, ASKING) == 1
}

// How many reservations of a domain are above 0.
fn reservations(page: &[u64], n: usize) -> u32 {
    [cells::Q, cells::V]
        .iter()
        .filter(|&&column| cells::get(page, n, column) > 0)
        .count() as u32
}

fn has_foreseen(page: &[u64], n: usize) -> bool {
    cells::get(page, n, cells::Q) > forecast::need(page, n)
}

fn settled(page: &[u64]) -> Shares
    ensures { result.faults ≤ 16 }
{
    Shares {
        asked: count(|n| kept_asking(page, n) && reservations(page, n) > 0),
        twofold: count(|n| kept_asking(page, n) && reservations(page, n) == 2),
        foreseen: count(|n| kept_asking(page, n) && has_foreseen(page, n)),
        faults: count(|n| kept_asking(page, n) && !used_up(page, n)),
    }
}

// Enters a decided slot, and tells as a fault a second verdict 1.
fn enter_decided(page: &mut [u64], offers: &[u8], verdicts: &[u8], steps: u32) -> u32
    ensures { result ≤ 1 }
{
    mark_asking(page, offers);
    cells::add(page, 0, cells::DECIDED, 1);
    cells::add(page, 0, cells::STEPS, u64::from(steps));
    enter_grant(page, offers, first_granted(verdicts));
    u32::from(second_granted(verdicts))
}

// The entry of a call that completes a period, and the next page, of the plan kept if there is one; the bounds hold from its
// first moment on.
fn closed_entry(page: &mut [u64], faults: u32) -> Entry
    requires { faults ≤ 3 }
{
    let entry = open_entry(page, faults);
    let shared = settled(page);
    forecast::learn(page);
    waiting::take_force(page);
    start_page(page);
    let fresh = bounds(page);
    Entry {
        complete: true,
        asked: shared.asked,
        twofold: shared.twofold,
        foreseen: shared.foreseen,
        faults: entry.faults + shared.faults + fresh,
    }
}

// Whether the counts told are not those due, as a fault.
fn untrue_counts(page: &[u64], complete: bool, told: bool, counts: &[u64]) -> u32
    ensures { result ≤ 1 }
{
    u32::from(!counts_agree(page, complete, told, counts))
}

// A slot call: its offers, whether it was refused, its verdicts, the steps that it told, whether counts were told, and which.
// Seven parameters: what a slot call showed, of one caller; a struct of them would be made for it alone. `refused` and `told`
// are what the ledger is fed, as document 01 says.
pub fn enter_slot(
    page: &mut [u64],
    offers: &[u8],
    refused: bool,
    verdicts: &[u8],
    steps: u32,
    told: bool,
    counts: &[u64],
) -> Entry {
    if refused {
        return open_entry(page, untrue_counts(page, false, told, counts));
    }
    let second = enter_decided(page, offers, verdicts, steps);
    let complete = cells::get(page, 0, cells::DECIDED) == cells::get(page, 0, cells::PERIOD);
    let faults = second + untrue_counts(page, complete, told, counts);
    if complete {
        closed_entry(page, faults)
    } else {
        open_entry(page, faults)
    }
}
