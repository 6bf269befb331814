// One call of the library and of the model on the same state, compared; and its entry into the ledger. What the library answers
// takes the place of the state's words and of a slot's counts. A slot is put to both engines, each on that state: what either
// answers has to be what the model does. So has the cause of one of its verdicts.
use super::asked;
use super::run::Desk;
use model_calls::{Entry, cells};
use plan::Plan;
use regulator::{Counts, Slot, SlotFault, State};
use trial_kit::tally::Verdict;
use trial_kit::values;
use trial_states::calls::{Asks, Call};
use trial_states::forms;

// What a call told beside its state and counts. A refusal is its number, or 0, as the model and the stated cases have it.
#[derive(Clone, Copy, Debug, PartialEq, Eq)]
pub struct Told {
    pub number: u32,
    pub place: u32,
    pub verdicts: [u8; 18],
    pub complete: bool,
    pub steps: u32,
}

// All that a call answers: what it told, the words of the state, and the counts, 0 where there are none.
#[derive(Clone, Copy, Debug, PartialEq, Eq)]
struct Reply {
    told: Told,
    words: [u64; 476],
    counts: [u64; 238],
}

// The second engine's part in a call: none, a slot that it decided, or one that it refused.
#[derive(Clone, Copy, Debug, PartialEq, Eq)]
pub enum Part {
    NotAsked,
    Decided,
    Refused,
}

// What the library told, by the first engine, beside the model's refusal and whether all is the same; the second engine's part;
// and the sort of the cause, where one was asked for.
#[derive(Clone, Copy)]
pub struct Outcome {
    pub told: Told,
    pub verdict: Verdict,
    pub second: Part,
    pub asked: Option<usize>,
}

// What a call tells that has neither verdicts nor steps nor counts.
fn refusal(number: u32, place: u32) -> Told {
    Told {
        number,
        place,
        verdicts: [0; 18],
        complete: false,
        steps: 0,
    }
}

// The words of a state, before a call on it.
fn words_of(now: &[u64]) -> [u64; 476] {
    let mut words = [0u64; 476];
    forms::copy(&mut words, now);
    words
}

impl Reply {
    // Of a call on a state of these words that is still to be made. It is lent to the call: it is large, and is not copied.
    fn before(now: &[u64]) -> Reply {
        Reply {
            told: refusal(0, 0),
            words: words_of(now),
            counts: [0; 238],
        }
    }

    // The state and counts that a call answered, or the state that was given where it was refused.
    fn put(&mut self, s: State, counts: Option<Counts>, told: Told) {
        self.told = told;
        forms::put_state(&mut self.words, s);
        if let Some(period) = counts {
            forms::put_counts(&mut self.counts, period);
        }
    }
}

// A slot put to an engine.
fn library_slot<D: FnOnce(State, &[u8], &mut [u8]) -> Result<Slot, SlotFault>>(
    decide: D,
    now: &[u64],
    c: Call,
    reply: &mut Reply,
)
    requires { D.IsAlwaysCallable decide }
{
    let mut verdicts = [c.filled; 18];
    let s = forms::state_of(now);
    let offers = &c.offers[..c.offered.min(18)];
    let answer = decide(s, offers, &mut verdicts[..c.lent.min(18)]);
    let told = Told {
        verdicts,
        ..refusal(0, 0)
    };
    match answer {
        Ok(a) => {
            let complete = a.counts.is_some();
            let steps = a.steps;
            reply.put(
                a.state,
                a.counts,
                Told {
                    complete,
                    steps,
                    ..told
                },
            );
        }
        Err(e) => {
            let number = u32::from(e.number());
            reply.put(s, None, Told { number, ..told });
        }
    }
}

// The answer of a call that tells no counts, given such a state.
fn put_state_reply(given: State, answer: Result<State, Told>, reply: &mut Reply) {
    match answer {
        Ok(s) => reply.put(s, None, refusal(0, 0)),
        Err(told) => reply.put(given, None, told),
    }
}

fn library_yield(now: &[u64], c: Call, reply: &mut Reply) {
    let s = forms::state_of(now);
    let answer = regulator::yield_claim(s, c.domain, c.k);
    put_state_reply(
        s,
        answer.map_err(|e| refusal(u32::from(e.number()), 0)),
        reply,
    );
}

fn library_handing(now: &[u64], p: Plan, reply: &mut Reply) {
    let s = forms::state_of(now);
    let answer = regulator::hand_in(s, p);
    put_state_reply(
        s,
        answer.map_err(|e| refusal(u32::from(e.number()), u32::from(e.place()))),
        reply,
    );
}

// No state is given to an opening: where it is refused, there is none.
fn library_opening(p: Plan, reply: &mut Reply) {
    let answer = regulator::open(p);
    put_state_reply(
        regulator::no_state(),
        answer.map_err(|e| refusal(u32::from(e.fault.number()), u32::from(e.place))),
        reply,
    );
}

fn library_call(now: &[u64], c: Call, reply: &mut Reply) {
    let p = forms::plan_of(now, forms::GIVEN);
    match c.asks {
        Asks::Slot => library_slot(
            |s, offers, lent| regulator::slot(s, offers, lent),
            now,
            c,
            reply,
        ),
        Asks::Yield => library_yield(now, c, reply),
        Asks::HandIn => library_handing(now, p, reply),
        Asks::Open => library_opening(p, reply),
    }
}

// A slot completes its period where one more is closed.
fn model_slot(now: &[u64], c: Call, reply: &mut Reply) {
    let mut verdicts = [c.filled; 18];
    let offers = &c.offers[..c.offered.min(18)];
    let lent = &mut verdicts[..c.lent.min(18)];
    let d = model_calls::slot(&mut reply.words, offers, lent, &mut reply.counts);
    reply.told = Told {
        number: d.number,
        place: 0,
        verdicts,
        complete: forms::word(&reply.words, 2) != forms::word(now, 2),
        steps: d.steps,
    };
}

// A call of the model other than a slot.
fn model_told(words: &mut [u64], c: Call, p: Plan) -> Told {
    let period = u32::from(p.period);
    let domains = values::words(p);
    match c.asks {
        Asks::Slot | Asks::Yield => refusal(model_calls::take_yield(words, c.domain, c.k), 0),
        Asks::HandIn => {
            let h = model_calls::hand_in(words, period, domains);
            refusal(h.number, h.place)
        }
        Asks::Open => {
            let o = model_calls::open(period, domains, words);
            refusal(o.number, o.place)
        }
    }
}

fn model_call(now: &[u64], c: Call, reply: &mut Reply) {
    if c.asks == Asks::Slot {
        return model_slot(now, c, reply);
    }
    let told = model_told(&mut reply.words, c, forms::plan_of(now, forms::GIVEN));
    reply.told = told;
}

// The second engine decides slots, and no other call is put to it.
fn second_part(told: Told) -> Part {
    if told.number == 0 {
        Part::Decided
    } else {
        Part::Refused
    }
}

pub fn answered(now: &mut [u64; 714], counts: &mut [u64; 238], c: Call) -> Outcome {
    let mut due = Reply::before(now);
    model_call(now, c, &mut due);
    let mut first = Reply::before(now);
    library_call(now, c, &mut first);
    let mut same = first == due;
    let mut second = Part::NotAsked;
    let mut asked = None;
    if c.asks == Asks::Slot {
        let mut other = Reply::before(now);
        library_slot(
            |s, offers, lent| engine::slot(s, offers, lent),
            now,
            c,
            &mut other,
        );
        let cause = asked::answered(now, c);
        same = same && other == due && cause.same;
        second = second_part(other.told);
        asked = Some(model_calls::sort(cause.cause));
    }
    now[..476].copy_from_slice(&first.words);
    *counts = first.counts;
    Outcome {
        told: first.told,
        verdict: Verdict {
            number: due.told.number,
            same,
        },
        second,
        asked,
    }
}

// A plan that is opened begins the page.
fn begun(page: &mut [u64], p: Plan) -> Entry {
    model_calls::begin(page, u32::from(p.period), values::words(p));
    Entry {
        complete: false,
        asked: 0,
        twofold: 0,
        foreseen: 0,
        faults: 0,
    }
}

// Whether a word of a state is one that the ledger's page keeps too: slots decided, idle, best effort and steps; claims,
// passes, yielded, writebacks, the mark and the estimate.
fn is_kept(row: usize, column: usize) -> bool {
    if row > 0 {
        return column >= cells::CLAIM;
    }
    matches!(
        column,
        cells::DECIDED | cells::IDLE | cells::BEST | cells::STEPS
    )
}

// Whether the ledger's page, which has seen nothing of the state, keeps what the state holds after a call that is not refused.
pub fn agree(page: &[u64], now: &[u64], number: u32) -> bool {
    number != 0
        || (0..cells::COUNTS).all(|k| {
            !is_kept(k / cells::COLUMNS, k % cells::COLUMNS)
                || forms::word(page, k) == forms::word(now, k)
        })
}

// Feeds the ledger a call on a state of these words, with the plan at hand behind them, whether the library refused the call,
// and what it told.
pub fn entered(desk: &mut Desk, words: &[u64], c: Call, t: Told) -> Entry {
    let refused = t.number != 0;
    let page = &mut desk.page;
    let p = forms::plan_of(words, forms::GIVEN);
    match c.asks {
        Asks::Slot => model_calls::enter_slot(
            page,
            &c.offers,
            refused,
            &t.verdicts,
            t.steps,
            t.complete,
            &desk.counts,
        ),
        Asks::Yield => model_calls::enter_yield(page, refused, c.domain, c.k),
        Asks::HandIn => model_calls::enter_plan(
            page,
            refused,
            u32::from(p.period),
            values::words(p),
        ),
        Asks::Open => begun(page, p),
    }
}
