// Compares the texts of whole replays and of answers to questions, the library's with the model's, on stated cases and on plan
// files, scripts and files `ask` that are fixed by seeds, and prints what was compared.
#![tactic(auto)]

use asking::Question;
use compare::{Outcome, Replay};
use model_calls::Cause;
use pieces::Parts;
use std::io;
use trial_kit::tally::Tally;
use trial_kit::{draw, read_full, tally};
use trial_scripts::cases::Case;
use trial_scripts::{asks, cases, files, scripts};

mod asking;
mod compare;
mod pieces;
mod report;
mod stated;

// The most bytes of the text that states cases, and of a script.
const GIVEN: usize = 65536;

const SCRIPT: usize = 131072;

fn parts_of(c: Case) -> Parts {
    if c.kind == cases::PLACES {
        pieces::at_place(c.case)
    } else {
        pieces::drawn(draw::low(c.seed))
    }
}

// What was compared so far, and the periods closed of the kind at hand; the script of a case; the words of its model's state,
// behind which verdicts are counted; and the causes that were told, by their sorts.
#[derive(Clone, Copy)]
struct Trial {
    tally: Tally,
    periods: u32,
    script: [u8; SCRIPT],
    words: [u64; 483],
    causes: [u64; 23],
}

impl Trial {
    fn count_cause(&mut self, c: Cause) {
        if let Some(told) = self.causes.get_mut(model_calls::sort(c)) {
            *told = told.wrapping_add(1);
        }
    }

    // A case's replay, on a script of so many bytes.
    fn replay<'a>(&'a self, file: &'a [u8], bytes: usize, c: Case) -> Replay<'a> {
        Replay {
            file,
            script: &self.script[..bytes.min(SCRIPT)],
            lent: cases::lent(c),
            filled: draw::low(c.seed),
            parts: parts_of(c),
        }
    }

    // One of its questions.
    fn reply(&self, file: &[u8], bytes: usize, c: Case) -> asking::Reply {
        let mut ask = [0u8; 16];
        let of = self.replay(file, bytes, c);
        let size = asks::put(&mut ask, &self.words, c, of.script.len());
        let question = Question {
            ask: &ask[..size.min(16)],
            of,
        };
        question.reply()
    }

    // The case's questions, of which the last one's refusal is told.
    fn questions(&mut self, file: &[u8], bytes: usize, c: Case) -> Outcome {
        let mut same = true;
        let mut number: u32 = 0;
        for k in 0..asks::count(c.kind) {
            let a = self.reply(file, bytes, asks::question(c, k));
            self.count_cause(a.cause);
            number = a.cause.number;
            same = same && a.same;
        }
        Outcome {
            number,
            periods: 0,
            same,
        }
    }

    // The case's line, or its replay and its questions.
    fn outcome(&mut self, file: &[u8], bytes: usize, c: Case) -> Outcome {
        if c.kind == cases::LINES {
            let of = self.replay(file, bytes, c);
            return compare::line(of.script, of.filled);
        }
        let q = self.questions(file, bytes, c);
        if c.kind >= cases::QUESTIONS {
            return q;
        }
        let o = self.replay(file, bytes, c).outcome();
        Outcome {
            same: o.same && q.same,
            ..o
        }
    }

    fn try_case(&mut self, c: Case) {
        let mut file = [0u8; 1040];
        let size = files::put(&mut file, c);
        let bytes = scripts::put(&mut self.script, &mut self.words, c);
        let o = self.outcome(&file[..size.min(1040)], bytes, c);
        let tally = tally::counted(self.tally, c.kind, c.case, o.verdict());
        self.tally = tally;
        self.periods = self.periods.wrapping_add(o.periods);
    }

    fn try_kind(&mut self, rt: &impl Print, names: &[u8], kind: u32) -> io::Result<()> {
        let fresh = tally::next_kind(self.tally);
        self.tally = fresh;
        self.periods = 0;
        self.words = [0; 483];
        for case in 0..cases::runs(kind) {
            self.try_case(cases::of(kind, case));
        }
        report::kind_line(rt, names, self.tally, kind, self.periods)?;
        report::verdicts_line(rt, &self.words, kind)
    }
}

// The stated cases and those of all kinds, given the text that states them and names the kinds.
fn try_all(rt: &impl Print, given: &[u8]) -> io::Result<()> {
    let tally = stated::cases(rt, tally::start(), given)?;
    let mut trial = Trial {
        tally,
        periods: 0,
        script: [0; SCRIPT],
        words: [0; 483],
        causes: [0; 23],
    };
    for kind in 0..cases::KINDS {
        trial.try_kind(rt, given, kind)?;
    }
    report::causes_line(rt, &trial.causes)?;
    report::last_lines(rt, given, trial.tally)
}

fn main(rt: HostRuntime) -> io::Result<()> {
    let mut given = [0u8; GIVEN];
    let bytes = read_full(&mut rt.stdin(), &mut given);
    try_all(&rt, &given[..bytes])
}
