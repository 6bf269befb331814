// Slots in which a chosen set of numbers passes, with a chosen turn: beside all else they are held against the rule of the turn.
use super::both;
use super::run::{Case, Run};
use trial_kit::tally::Verdict;
use trial_rows::turns;
use trial_states::{forms, passing};

impl Run {
    // The slot of a case, which is no part of a list.
    pub fn try_turn(&mut self, of: Case) {
        let mut words = [0u64; 714];
        let mut counts = [0u64; 238];
        let p = passing::of_case(of.kind, of.case, of.seed);
        let set = passing::set(p);
        passing::put_state(&mut words, p, set);
        let o = both::answered(&mut words, &mut counts, passing::call(p, set));
        let t = o.told;
        self.desk.rows.turns.note(p.turn, t.verdicts, t.steps);
        let held = turns::hold(set, p.turn, t.verdicts, t.steps, forms::word(&words, 6));
        let verdict = Verdict {
            number: o.verdict.number,
            same: o.verdict.same && held,
        };
        self.count(of, verdict, o);
    }
}
