// The search for the slot that is asked for: lines carried out one after the other, on a script that comes part by part.
ghost use Rattle.std.specs.Prelude.{◌≡◌, true, false, ◌≤◌, ◌<◌, length};
ghost use Rattle.regulator.specs.State.{adds_up};
ghost use Rattle.script.specs.Line.{slot_line, yield_line, meaning_of};
ghost use Rattle.script.specs.Inner.{LineEnd, open_end};
ghost use Rattle.question.specs.declared.seeking.Stage.TheVariants.{AskRefused};
ghost use Rattle.question.specs.Seeking.{goes_on, Sound, Sought, Seeks, Started};
ghost use Rattle.question.specs.Inner.{first_stage, begun as begun_in, over as over_at, found as found_in, onward as onward_to, search_after};

use super::ask;
use regulator::State;
use script::Line;

// How far a search is: it goes on; it found its slot; or it ended with a refusal, of the question or of the plan. Refusals stay numbers:
// `seek` and `finish` take a Search, and of enums they would ask more.
#[derive(Clone, Copy)]
pub enum Stage {
    Seeking,
    Found,
    AskRefused(u8),
    PlanRefused { number: u8, place: u16 },
}

// A search between two lines: its stage; the state, which is the one before the slot where that is found; the offers of the slot that
// is found; how many slots are to be decided, the one asked for among them; the number asked for; and the bytes of the part of the
// script in hand that are done.
#[derive(Clone, Copy)]
pub struct Search {
    pub stage: Stage,
    pub state: State,
    pub offers: [u8; 17],
    pub left: u64,
    pub number: u64,
    pub used: usize,
}

// Is the slot still to be found?
fn is_seeking(stage: Stage) -> bool
    ensures { result ≡ goes_on stage }
{
    matches!(stage, Stage::Seeking)
}

pub fn goes_on(q: Search) -> bool
    ensures { result ≡ goes_on q.stage }
{
    let stage = q.stage;
    is_seeking(stage)
}

// The search, with nothing of the part in hand done: what was left of the part before lies at the front of it.
pub fn from_start(q: Search) -> Search
    ensures { result ≡ record { stage = q.stage; state = q.state; offers = q.offers; left = q.left; number = q.number; used = 0 } }
{
    Search { used: 0, ..q }
}

// A search that ended with a refusal of the question: the slot is not decided.
fn over(q: Search) -> Search
    ensures { result ≡ over_at q (AskRefused 61) }
{
    Search {
        stage: Stage::AskRefused(61),
        ..q
    }
}

// A search that found its slot.
fn found(q: Search, offers: [u8; 17]) -> Search
    ensures { result ≡ found_in q offers }
{
    Search {
        stage: Stage::Found,
        offers,
        ..q
    }
}

// A search that goes on behind a line.
fn onward(q: Search, state: State, left: u64, used: usize) -> Search
    ensures { result ≡ onward_to q state left used }
{
    Search {
        stage: Stage::Seeking,
        state,
        left,
        used,
        ..q
    }
}

// (That the state adds up is required, as `engine::run_slot` and `regulator::run_yield` require it.)
fn slot_line(q: Search, offers: [u8; 17], next: usize) -> Search
    requires state_value { adds_up q.state ≡ true }
    requires le_left { 1 ≤ q.left }
    ensures { result ≡ search_after q (slot_line offers) next }
{
    match engine::run_slot(q.state, &offers) {
        Err(_) => over(q),
        Ok(_) if q.left == 1 => found(q, offers),
        Ok(slot) => onward(q, slot.state, q.left - 1, next),
    }
}

fn yield_line(q: Search, domain: u64, k: u64, next: usize) -> Search
    requires { adds_up q.state ≡ true }
    ensures { result ≡ search_after q (yield_line domain k) next }
{
    match regulator::run_yield(q.state, domain, k) {
        Ok(state) => onward(q, state, q.left, next),
        Err(_) => over(q),
    }
}

// Carries out a line, without its byte 10.
fn carry_out(q: Search, line: &[u8], next: usize) -> Search
    requires state_value { adds_up q.state ≡ true }
    requires le_left { 1 ≤ q.left }
    ensures { result ≡ search_after q (meaning_of line.now) next }
{
    let mut offers = [0u8; 17];
    match script::read_line(line, &mut offers) {
        Line::Slot => slot_line(q, offers, next),
        Line::Yield { domain, count } => yield_line(q, domain, count, next),
        Line::Bad(_) => over(q),
    }
}

// Carries out the line of a part that ends at `end`. (That a search is sound is required here and below: a Search is a value with public
// fields that its caller keeps between the parts.)
fn next_line(q: Search, part: &[u8], end: usize) -> Search
    requires sound { Sound q }
    requires stage_value { goes_on q.stage ≡ true }
    requires line_end { LineEnd part.now q.used end }
    requires part_value { open_end q.used end (length part.now) ≡ false }
    ensures sought { Sought part.now q result }
    ensures used_lt_used { goes_on result.stage ≡ true → q.used < result.used }
{
    let used = q.used;
    carry_out(q, &part[used..end], end + 1)
}

// Carries out the lines of a part of the script, from what is done of it on, until the slot is decided, a line is refused, or the part
// has no whole line any more.
pub fn seek(q: Search, part: &[u8]) -> Search
    requires sound { Sound q }
    requires used_in_bounds { q.used ≤ length part.now }
    ensures { Seeks part.now q result }
{
    let mut r = q;
    while goes_on(r) {
        let end = script::line_end(part, r.used);
        if script::is_open_end(r.used, end, part.len()) {
            return r;
        }
        r = next_line(r, part, end);
    }
    r
}

// The stage before the first line, of a plan that is not refused.
fn first_stage(slot: u64) -> Stage
    ensures { result ≡ first_stage slot }
{
    if slot == 0 {
        return Stage::AskRefused(61);
    }
    Stage::Seeking
}

// The search before the first line.
fn begin(stage: Stage, state: State, slot: u64, number: u64) -> Search
    ensures { result ≡ begun_in stage state slot number }
{
    Search {
        stage,
        state,
        offers: [0; 17],
        left: slot,
        number,
        used: 0,
    }
}

// The search before the first line, from the bytes of the files `plan` and `ask`.
pub fn start(plan: &[u8], ask: &[u8]) -> Search
    ensures { Started plan.now ask.now result }
{
    let opened = script::opened(plan);
    let Some(asked) = ask::read_ask(ask) else {
        let state = opened.unwrap_or(regulator::no_state());
        return begin(Stage::AskRefused(63), state, 0, 0);
    };
    match opened {
        Ok(state) => begin(first_stage(asked.slot), state, asked.slot, asked.number),
        Err(e) => {
            let stage = Stage::PlanRefused {
                number: e.fault.number(),
                place: e.place,
            };
            begin(stage, regulator::no_state(), asked.slot, asked.number)
        }
    }
}
