// Cases whose outcomes are stated as numbers, read as text lines. The first letter tells what a line is:
//   case NAME                       a case begins
//   plan PPPP                       the plan at hand: its period,
//   domain NN QQQQ RRRR WWWW VVVV   each domain, V its writeback reservation,
//   beside NN QQQQ RRRR WWWW VVVV   numbers of a domain that is not planned,
//   mark NN                         and a mark of a domain, planned or not, behind the domain's line
//   open NN PPPP                    opening it tells this refusal and place
//   give NN PPPP                    handing it in tells this refusal and place
//   slot OFFERS VERDICTS NN SS      a slot call, the bytes of the buffer after it (9 before it), its refusal and its steps; it is
//                                   put to both engines, and either has to answer as is stated
//   yield NN KKKK NN                a yield by a domain, and its refusal
//   query OFFERS NN RR V W FFFF SSSS
//                                   the cause (`explain`) of the verdict of a number in the slot that these offers would make of
//                                   the state, which stays: the refusal, the verdict, 1 for claim, 2 for stock, 3 for neither or 4
//                                   for a first figure below zero, and the figures
//   told 00 IIII BBBB SSSSS         the counts told by the slot call before: idle, best effort and the sum of steps,
//   told NN RRRR CCCC YYYY WWWW     and a domain's reserved, reclaimed, yielded and writebacks
//   none                            the call before told no counts
//   runs                            the plan at hand is in force
//   waits F                         the plan at hand lies beside the flag, which is 1 where a plan waits
//   lay F                           the plan at hand is put beside the flag, and the flag to this, in the ledger too
//   has RR CC N                     the word of the state in this row and column of the model, of one to ten digits; the flag
//                                   is 17 01
//   entry RR CC N                   the same of the ledger's page, where 00 of a domain tells whether it kept asking, and 03 its
//                                   writebacks on claim
//   alter RR CC N                   that word is put to a value, in the ledger too
//   found NN E                      the state's estimate of a domain: `none`, `NaN`, or the bits of a float as up to sixteen
//                                   hexadecimal digits, behind which zeros are left out (1 is 3ff0 or 3ff, 0 is 0)
//   judged NN E                     the same of the ledger's page
//   known NN E                      that estimate is put so, in the ledger too
//   unbroken NN KK                  the row of a number: in how many decided slots in a row, under one plan, it passed and was
//                                   not granted; `alter`, `lay` and `known` end all rows
// Numbers left out at a line's end are 0, and domain 00 is all sixteen.
ghost use Rattle.std.specs.Prelude.{◌≤◌};

use super::both::{Outcome, Told};
use super::run::{Case, Run};
use super::text::Line;
use super::{asked, rows, seen};
use model_calls::{Cause, cells};
use std::io;
use trial_kit::{lines, report, tally, values};
use trial_states::calls::{Asks, Call};
use trial_states::forms;

// The kind of all stated cases.
pub const STATED: u32 = 100;

// The run so far, the case at hand and where its name stands, and whether the last call told counts.
#[derive(Clone, Copy)]
struct Script {
    run: Run,
    of: Case,
    named: usize,
    complete: bool,
}

// What the call of a line is.
fn asks_of(letter: u8) -> Asks {
    match letter {
        b's' => Asks::Slot,
        b'y' => Asks::Yield,
        b'g' => Asks::HandIn,
        _ => Asks::Open,
    }
}

// The number whose verdict is explained beside a slot call is what two of its offers happen to make.
fn call_of(l: Line) -> Call {
    Call {
        asks: asks_of(l.letter()),
        offers: l.digits(5, 0),
        offered: 17,
        lent: 17,
        filled: 9,
        domain: l.number(6, 2),
        k: l.number(9, 4),
    }
}

// Where a line states the refusal of its call.
fn refusal_at(letter: u8) -> usize {
    match letter {
        b's' => 41,
        b'y' => 14,
        _ => 5,
    }
}

// Whether a cause is the one that a line states.
fn is_cause(m: Cause, l: Line) -> bool {
    let kind = if m.below { 4 } else { m.word };
    m.number == l.small(27, 2)
        && u32::from(m.verdict) == l.small(30, 1)
        && u32::from(kind) == l.small(32, 1)
        && m.first == l.number(34, 4)
        && m.second == l.number(39, 4)
}

// Whether the count in a column of the row that the line names is the number of so many digits at an offset.
fn tells(counts: &[u64], l: Line, column: usize, offset: usize, digits: usize) -> bool {
    cells::get(counts, l.index(5), column) == l.number(offset, digits)
}

// Whether all counts of that row are those of the line.
fn row_told(counts: &[u64], l: Line) -> bool {
    if l.index(5) == 0 {
        return tells(counts, l, 3, 8, 4)
            && tells(counts, l, 4, 13, 4)
            && tells(counts, l, 7, 18, 5);
    }
    tells(counts, l, 6, 8, 4)
        && tells(counts, l, 7, 13, 4)
        && tells(counts, l, 8, 18, 4)
        && tells(counts, l, 9, 23, 4)
}

// Whether the word in the row and column that stand at an offset is the number behind them.
fn is_word(words: &[u64], l: Line, offset: usize) -> bool
    requires { offset ≤ 6 }
{
    let k = 14 * l.index(offset) + l.index(offset + 3);
    forms::word(words, k) == l.figure(offset + 6)
}

// An estimate that stands at an offset, as the model's kind and bits.
#[derive(Clone, Copy)]
struct Estimate {
    kind: u64,
    bits: u64,
}

fn estimate_at(l: Line, offset: usize) -> Estimate {
    match l.byte(offset) {
        b'n' => Estimate { kind: 0, bits: 0 },
        b'N' => Estimate { kind: 2, bits: 0 },
        _ => Estimate {
            kind: 1,
            bits: l.bits(offset),
        },
    }
}

// Whether the estimate of the domain that stands at an offset is the one behind it.
fn is_estimate(words: &[u64], l: Line, offset: usize) -> bool
    requires { offset ≤ 7 }
{
    let row = l.index(offset);
    let e = estimate_at(l, offset + 3);
    forms::word(words, 14 * row + 12) == e.kind && forms::word(words, 14 * row + 13) == e.bits
}

// A domain of the plan at hand, planned or not.
fn put_domain(l: Line, now: &mut [u64], number: usize, planned: u64)
    requires { number ≤ 65535 }
{
    let row = forms::GIVEN + 14 * number;
    forms::put(now, row, planned);
    forms::put(now, row + 1, l.number(10, 4));
    forms::put(now, row + 2, l.number(15, 4));
    forms::put(now, row + 3, l.number(20, 4));
    forms::put(now, row + 4, l.number(25, 4));
    forms::put(now, row + 11, 0);
}

// The domain of a line that begins with `domain`, or all sixteen.
fn put_domains(l: Line, now: &mut [u64]) {
    let named = l.index(7);
    if named > 0 {
        put_domain(l, now, named, 1);
        return;
    }
    for number in 1..=16 {
        put_domain(l, now, number, 1);
    }
}

// A line that changes the plan at hand.
fn put_given(l: Line, now: &mut [u64]) {
    match l.letter() {
        b'p' => forms::put_plan(
            now,
            forms::GIVEN,
            values::with_period(plan::no_domains(0), l.small(5, 4)),
        ),
        b'd' => put_domains(l, now),
        b'b' => put_domain(l, now, l.index(7), 0),
        _ => forms::put(now, forms::GIVEN + 14 * l.index(5) + 11, 1),
    }
}

impl Script {
    // Counts an outcome, and notes a difference where it is not as stated.
    fn state(&mut self, same: bool) {
        let tally = tally::noted(self.run.tally, STATED, self.of.case, same);
        self.run.tally = tally;
        self.run.seen.raise(seen::STATED, 1);
    }

    // The steps and verdicts of a slot line; the place of an opening and of a plan handed in.
    fn state_rest(&mut self, l: Line, t: Told) {
        match l.letter() {
            b's' => {
                self.state(t.steps == l.small(44, 2));
                self.state(t.verdicts == l.digits(23, 9));
            }
            b'y' => {}
            _ => self.state(t.place == l.small(8, 4)),
        }
    }

    // The call of a line: its refusal, and the rest of its outcome.
    fn call_line(&mut self, l: Line) {
        let o = self.run.call(self.of, call_of(l));
        self.complete = o.told.complete;
        self.state(o.verdict.number == l.small(refusal_at(l.letter()), 2));
        self.state_rest(l, o.told);
    }

    // A cause asked for on the state.
    fn query_line(&mut self, l: Line) {
        let of = Call {
            asks: Asks::Slot,
            offers: l.digits(6, 0),
            domain: l.number(24, 2),
            ..call_of(l)
        };
        let a = asked::answered(&self.run.desk.now, of);
        self.state(a.same && is_cause(a.cause, l));
    }

    // Whether the state, the ledger's page, or the counts of the last call, are as a line states.
    fn holds(&self, l: Line) -> bool {
        let now = &self.run.desk.now;
        let page = &self.run.desk.page;
        match l.letter() {
            b't' => self.complete && row_told(&self.run.desk.counts, l),
            b'n' => !self.complete,
            b'r' => forms::same_plans(now, forms::FORCE, forms::GIVEN),
            b'w' => {
                forms::word(now, forms::WAITS) == l.number(6, 1)
                    && forms::same_plans(now, forms::NEXT, forms::GIVEN)
            }
            b'e' => is_word(page, l, 6),
            b'f' => is_estimate(now, l, 6),
            b'j' => is_estimate(page, l, 7),
            _ => is_word(now, l, 4),
        }
    }

    // The plan at hand put beside the flag, and the flag, in the ledger too.
    fn lay(&mut self, flag: u64) {
        let p = forms::plan_of(&self.run.desk.now, forms::GIVEN);
        forms::put_plan(&mut self.run.desk.now, forms::NEXT, p);
        forms::put(&mut self.run.desk.now, forms::WAITS, flag);
        forms::put_plan(&mut self.run.desk.page, forms::NEXT, p);
        forms::put(&mut self.run.desk.page, forms::WAITS, flag);
    }

    fn alter(&mut self, k: usize, value: u64) {
        forms::put(&mut self.run.desk.page, k, value);
        forms::put(&mut self.run.desk.now, k, value);
        forms::fit(&mut self.run.desk.now);
    }

    // The bits of a NaN become what the state makes of them.
    fn know(&mut self, k: usize, e: Estimate)
        requires { k ≤ 1048576 }
    {
        let now = &mut self.run.desk.now;
        forms::put(now, k, e.kind);
        forms::put(now, k + 1, e.bits);
        forms::fit(now);
        let kind = forms::word(now, k);
        let bits = forms::word(now, k + 1);
        forms::put(&mut self.run.desk.page, k, kind);
        forms::put(&mut self.run.desk.page, k + 1, bits);
    }

    // A line that changes the state and the ledger, and ends all rows.
    fn put_line(&mut self, l: Line) {
        match l.letter() {
            b'k' => self.know(14 * l.index(6) + 12, estimate_at(l, 9)),
            b'l' => self.lay(l.number(4, 1)),
            _ => self.alter(14 * l.index(6) + l.index(9), l.figure(12)),
        }
        self.run.desk.rows.begin();
    }

    // The counts of the case at hand are printed, and the next begins.
    fn case_line(&mut self, rt: &impl Print, l: Line) -> io::Result<()> {
        if self.of.case > 0 {
            lines::say_line(rt, l.text, self.named)?;
            report::counts_line(rt, self.run.tally)?;
        }
        let fresh = tally::next_kind(self.run.tally);
        self.run.tally = fresh;
        self.of.case = tally::more(self.of.case);
        self.named = l.at.wrapping_add(5);
        Ok(())
    }

    fn line(&mut self, rt: &impl Print, l: Line) -> io::Result<()> {
        match l.letter() {
            b'c' => self.case_line(rt, l)?,
            b'o' | b'g' | b's' | b'y' => self.call_line(l),
            b'p' | b'd' | b'b' | b'm' => put_given(l, &mut self.run.desk.now),
            b'l' | b'a' | b'k' => self.put_line(l),
            b'u' => {
                let same = rows::is_row(&self.run.desk.rows, l);
                self.state(same);
            }
            b'q' => self.query_line(l),
            _ => {
                let same = self.holds(l);
                self.state(same);
            }
        }
        Ok(())
    }
}

// All cases of the text. Its last line begins a case without a name, so that the one before is printed.
// A `while`: the place goes from line to line.
pub fn try_cases(rt: &impl Print, run: Run, text: &[u8]) -> io::Result<Run> {
    let mut script = Script {
        run,
        of: Case {
            kind: STATED,
            case: 0,
            seed: 0,
        },
        named: 0,
        complete: false,
    };
    let mut at: usize = 0;
    while at < text.len() {
        script.line(rt, Line { text, at })?;
        at = lines::after_line(text, at);
    }
    Ok(script.run)
}
