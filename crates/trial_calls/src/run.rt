// A list of calls from an opened plan on, each given the state that the last one answered.
use super::both::{Outcome, Told};
use super::seen::Seen;
use super::{both, rows, seen};
use trial_kit::tally::{Tally, Verdict};
use trial_kit::{draw, styles, tally, values};
use trial_rows::Rows;
use trial_states::calls::{Asks, Call};
use trial_states::styles::Style;
use trial_states::{calls, changes, draws, estimates, forms, handing, marks, sums, writes};

// Where the calls of a list are compared: the words of the state, with the plan at hand behind them, the counts of the last
// call, the ledger's page, and the rows of all lists.
#[derive(Clone, Copy)]
pub struct Desk {
    pub now: [u64; 714],
    pub counts: [u64; 238],
    pub page: [u64; 476],
    pub rows: Rows,
}

// What was compared and seen so far, the domains of the plan before the one in force, 0 where there was none, and the desk.
#[derive(Clone, Copy)]
pub struct Run {
    pub tally: Tally,
    pub seen: Seen,
    pub before: u32,
    pub desk: Desk,
}

// A case of a kind, and the number drawn for it. A kind is a number and no enum: seeds are drawn from it, and names are lines.
#[derive(Clone, Copy)]
pub struct Case {
    pub kind: u32,
    pub case: u32,
    pub seed: u32,
}

impl Case {
    // How the lists of its kind go.
    fn style(self) -> Style {
        trial_states::styles::of_kind(self.kind)
    }
}

impl Desk {
    // A desk on which no call was made.
    pub fn new() -> Desk {
        Desk {
            now: [0; 714],
            counts: [0; 238],
            page: [0; 476],
            rows: Rows::new(),
        }
    }

    // The desk for the next list: the rows stay.
    pub fn clear(&mut self) {
        self.now = [0; 714];
        self.counts = [0; 238];
        self.page = [0; 476];
    }
}

impl Run {
    // Nothing compared.
    pub fn new() -> Run {
        Run {
            tally: tally::start(),
            seen: Seen::new(),
            before: 0,
            desk: Desk::new(),
        }
    }

    // Counts one more verdict, the second engine's part in its call, and the cause that was asked for.
    pub fn count(&mut self, of: Case, v: Verdict, o: Outcome) {
        let tally = tally::counted(self.tally, of.kind, of.case, v);
        self.tally = tally;
        self.seen.see_second(o.second);
        self.seen.see_asked(o.asked);
    }

    // Notes what a plan showed that was handed in on a state of these words, where the call is such.
    fn mark_plan(&mut self, words: &[u64], asks: Asks, number: u32) {
        if asks == Asks::HandIn {
            self.seen.mark(seen::PLANS, &marks::of_plan(words, number));
        }
    }

    // Notes what a slot call or a yield showed of such plans, of writebacks and of forecasts, where the page stands as the state
    // does after it; an opening has no plan before it.
    fn mark_call(&mut self, words: &[u64], c: Call, t: Told) {
        let marks = marks::of_call(words, c, t.number, t.complete, self.before);
        let writes = writes::of_call(words, c, t.verdicts, t.number);
        let foreseen = estimates::of_call(words, &self.desk.page, c, t.number, t.complete);
        self.seen.mark(seen::CALLS, &marks);
        self.seen.mark(seen::WRITES, &writes);
        self.seen.mark(seen::FORECASTS, &foreseen);
        if t.complete {
            self.seen.see_close(words, &self.desk.page);
        }
        if c.asks == Asks::Open {
            self.before = 0;
        } else if marks[0] {
            self.before = marks::planned(words);
        }
    }

    // A call on a state of these words, which are others now, entered into the ledger and the rows.
    pub fn enter(&mut self, words: &[u64], of: Case, c: Call, o: Outcome) {
        let t = o.told;
        let e = both::entered(&mut self.desk, words, c, t);
        let within = rows::entered(&mut self.desk.rows, words, c.asks, t);
        let agrees = both::agree(&self.desk.page, &self.desk.now, t.number);
        let verdict = Verdict {
            number: o.verdict.number,
            same: o.verdict.same && within && e.faults == 0 && agrees,
        };
        let renewed = self.before != 0;
        self.count(of, verdict, o);
        self.seen.see_call(c.asks, t, e, &self.desk.counts, renewed);
        self.mark_call(words, c, t);
        self.mark_plan(words, c.asks, t.number);
    }

    // Notes a changed state: whether it still adds up, where its sum of steps stands, what lies beside its flag, how its writeback
    // claims stand, and which estimates it has.
    fn see_change(&mut self, words: &[u64], adds: bool) {
        let p = forms::plan_of(words, forms::NEXT);
        let told = model_plans::check(u32::from(p.period), values::words(p));
        let marks = marks::of_change(words, told.number, adds);
        self.seen.raise(seen::CHANGED, 1);
        self.seen.raise(seen::ADDING, u32::from(adds));
        self.seen.raise(seen::EDGES + sums::edge(words) % 5, 1);
        self.seen.mark(seen::BESIDE, &marks);
        self.seen
            .mark(seen::CLAIMS, &writes::of_change(words, adds));
        self.seen
            .mark(seen::ESTIMATES, &estimates::of_change(words, adds));
    }

    // Counts a drawn call on a state that is no part of the list, nor of the ledger, and puts what it answers.
    fn try_other(&mut self, words: &mut [u64; 714], of: Case, seed: u32, asks: Asks) -> Other {
        let mut counts = [0u64; 238];
        handing::prepare(words, of.style(), seed, asks);
        let before = *words;
        let c = draws::call(&before, of.style(), of.seed, seed, asks);
        let o = both::answered(words, &mut counts, c);
        self.count(of, o.verdict, o);
        self.mark_plan(&before, asks, o.verdict.number);
        Other {
            before,
            number: o.verdict.number,
        }
    }

    // A slot call on a changed state, a yield on what it answers, and a plan handed in on what that answers, for the kinds that
    // have such states; the list's own state stays.
    fn try_changed(&mut self, of: Case, seed: u32) {
        if !changes::has_kind(of.kind) {
            return;
        }
        let mut words = [0u64; 714];
        changes::put_changed(&mut words, &self.desk.now, of.kind, seed);
        let o = self.try_other(&mut words, of, seed, Asks::Slot);
        self.see_change(&o.before, o.number != 30);
        if forms::word(&o.before, 2) != forms::word(&words, 2) {
            self.seen.see_close(&o.before, &words);
        }
        self.try_other(&mut words, of, draw::draw(seed, 4), Asks::Yield);
        self.try_other(&mut words, of, draw::draw(seed, 9), Asks::HandIn);
    }

    // A call of the list, entered into the ledger and the rows.
    pub fn call(&mut self, of: Case, c: Call) -> Outcome {
        let before = self.desk.now;
        let o = both::answered(&mut self.desk.now, &mut self.desk.counts, c);
        self.enter(&before, of, c, o);
        o
    }

    // The drawn call of a step, before which the plan at hand is put where it is to be handed in.
    fn step(&mut self, of: Case, i: u32) {
        let style = of.style();
        let seed = draw::draw(of.seed, i.wrapping_add(100000));
        let asks = draws::kind_of(style, seed);
        handing::prepare(&mut self.desk.now, style, seed, asks);
        let c = draws::call(&self.desk.now, style, of.seed, seed, asks);
        self.call(of, c);
        self.try_changed(of, seed);
    }

    // The opening of the case's plan, and then the steps of its style.
    pub fn try_list(&mut self, of: Case) {
        let style = of.style();
        self.desk.clear();
        let p = styles::plan_of(style.plans, of.case, of.seed);
        forms::put_plan(&mut self.desk.now, forms::GIVEN, p);
        self.call(of, calls::opening());
        for i in 0..style.steps {
            self.step(of, i);
        }
    }
}

// A state before a call that is no part of a list, and the model's refusal of the call.
#[derive(Clone, Copy)]
struct Other {
    before: [u64; 714],
    number: u32,
}
