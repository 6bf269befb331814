// What the runs came to: verdicts, slots, steps, periods and plans handed in, so that a program that does nothing is noticed.
use super::both::{Part, Told};
use model_calls::{Entry, cells};
use std::io;
use trial_kit::lines::say_nth;
use trial_kit::report;
use trial_states::calls::Asks;
use trial_states::estimates;

// How often verdicts 0 to 6 were told stands at 0 to 6, how often steps 0 to 17 at 80 to 97, and behind them, by their sorts,
// the estimates of marked domains before and after closes, and the needs that they leave; then what was put to the second
// engine, and the causes that were asked for. A place is a number and no name: the lines are printed in their order.
#[derive(Clone, Copy)]
pub struct Seen {
    pub counts: [u32; COUNTS],
}

pub const IDLE: usize = 7;

pub const PERIODS: usize = 8;

pub const RECLAIMED: usize = 9;

pub const WRITEBACKS: usize = 10;

pub const ASKED: usize = 11;

pub const FAULTS: usize = 12;

pub const CHANGED: usize = 13;

pub const ADDING: usize = 14;

pub const STATED: usize = 15;

pub const EDGES: usize = 16;

const LARGEST: usize = 21;

// Of plans handed in: when they were taken and what they were, and what other calls showed of them; the domains that kept
// asking under one; and changed states by what lies beside their flag.
pub const PLANS: usize = 22;

pub const CALLS: usize = 35;

const RENEWED: usize = 44;

pub const BESIDE: usize = 45;

// The domains with both reservations that kept asking; what calls showed of writebacks, and changed states by how their
// writeback claims stand.
const TWOFOLD: usize = 53;

pub const WRITES: usize = 54;

pub const CLAIMS: usize = 63;

// What calls showed of forecasts, changed states by their estimates, and the domains that kept asking beside a forecast yield.
pub const FORECASTS: usize = 68;

pub const ESTIMATES: usize = 75;

const FORESEEN: usize = 79;

const STEPS: usize = 80;

const BEFORE: usize = 98;

const AFTER: usize = 112;

const NEEDS: usize = 123;

// The slot calls put to the second engine, and of them those that it refused.
const SECOND: usize = 130;

// The causes asked for, by their sorts from 0 on, where 0 stands for none; it is not counted.
const CAUSES: usize = 132;

const COUNTS: usize = 155;

impl Seen {
    // Nothing seen.
    pub fn new() -> Seen {
        Seen {
            counts: [0; COUNTS],
        }
    }

    pub fn raise(&mut self, k: usize, by: u32) {
        let at = k % COUNTS;
        let x = self.counts[at];
        if x < 1000000000 {
            self.counts[at] = x + by % 65536;
        }
    }

    // Each line from one on whose mark is set.
    pub fn mark(&mut self, from: usize, marks: &[bool]) {
        for (k, &is_set) in marks.iter().enumerate() {
            self.raise(from.wrapping_add(k), u32::from(is_set));
        }
    }

    // The counts of a completed period; its sum of steps where it is the largest so far.
    fn see_counts(&mut self, counts: &[u64]) {
        self.raise(PERIODS, 1);
        let sum = small(counts, 0, cells::STEPS);
        self.counts[LARGEST] = self.counts[LARGEST].max(sum);
        for n in 1..=16 {
            self.raise(RECLAIMED, small(counts, n, cells::RECLAIMED));
            self.raise(WRITEBACKS, small(counts, n, cells::WRITEBACKS));
        }
    }

    // A slot that was decided: its verdicts, its steps, and whether it was idle.
    fn see_slot(&mut self, t: Told, counts: &[u64]) {
        let verdicts = &t.verdicts[..17];
        for &verdict in verdicts {
            self.raise(usize::from(verdict % 7), 1);
        }
        self.raise(STEPS + (t.steps % 18) as usize, 1);
        self.raise(IDLE, u32::from(!verdicts.contains(&1)));
        if t.complete {
            self.see_counts(counts);
        }
    }

    // The second engine's part in a call.
    pub fn see_second(&mut self, part: Part) {
        self.raise(SECOND, u32::from(part != Part::NotAsked));
        self.raise(SECOND + 1, u32::from(part == Part::Refused));
    }

    // The cause asked for, of a sort.
    pub fn see_asked(&mut self, sort: Option<usize>) {
        if let Some(sort) = sort {
            self.raise(CAUSES + sort % 23, 1);
        }
    }

    // A marked domain at a close, from the words before it and after: its estimates, and its need where it has one.
    fn see_marked(&mut self, before: &[u64], after: &[u64], row: usize) {
        let sort = estimates::sort(after, row);
        self.raise(BEFORE + estimates::sort(before, row), 1);
        self.raise(AFTER + sort % 11, 1);
        if sort != 0 {
            self.raise(NEEDS + estimates::need(after, row), 1);
        }
    }

    // The close of a period.
    pub fn see_close(&mut self, before: &[u64], after: &[u64]) {
        for row in 1..=16 {
            if estimates::is_marked(before, row) {
                self.see_marked(before, after, row);
            }
        }
    }

    // A call of a run and its entry in the ledger, under a plan that was handed in or not.
    pub fn see_call(&mut self, asks: Asks, t: Told, e: Entry, counts: &[u64], renewed: bool) {
        if renewed {
            self.raise(RENEWED, e.asked);
        }
        self.raise(ASKED, e.asked);
        self.raise(TWOFOLD, e.twofold);
        self.raise(FORESEEN, e.foreseen);
        self.raise(FAULTS, e.faults);
        if asks == Asks::Slot && t.number == 0 {
            self.see_slot(t, counts);
        }
    }
}

// A count, of at most 32 bits.
fn small(counts: &[u64], row: usize, column: usize) -> u32 {
    cells::get(counts, row, column) as u32
}

// The lines before those of plans handed in.
fn say_first(rt: &impl Print, k: usize) -> io::Result<()> {
    say_nth(
        rt,
        b"verdict 0\n\
        verdict 1, slots granted\n\
        verdict 2\n\
        verdict 3\n\
        verdict 4\n\
        verdict 5\n\
        verdict 6\n\
        slots idle\n\
        periods completed\n\
        reclaimed passes in these\n\
        writebacks in these\n\
        domains with a reservation that kept asking through a completed period\n\
        sentences of demand 3 that did not hold\n\
        changed states\n\
        changed states that still add up\n\
        outcomes stated as numbers\n\
        changed states whose sum of steps is the least for their slots\n\
        changed states whose sum of steps is one less\n\
        changed states whose sum of steps is the most for their slots\n\
        changed states whose sum of steps is one more\n\
        changed states whose sum of steps is another\n\
        largest sum of steps of a completed period\n",
        k,
    )
}

// The lines of plans handed in, from 0 on.
fn say_of_plans(rt: &impl Print, k: usize) -> io::Result<()> {
    say_nth(
        rt,
        b"plans handed in and taken at T 0\n\
        plans handed in and taken in the middle of a period\n\
        plans handed in and taken at T P - 1\n\
        plans handed in and taken with P 1\n\
        plans taken in the place of one that waited\n\
        plans taken that are the plan in force again\n\
        plans taken with a domain more than the plan in force\n\
        plans taken without a domain that has claim left\n\
        plans taken with other numbers or another mark for a domain of the plan in force\n\
        plans taken while claim, stock and writebacks stand\n\
        plans refused with 2, 9, 11 or 10 while another waits\n\
        plans refused with 30\n\
        plans refused with 34\n\
        periods at whose end a plan took force\n\
        periods at whose end a plan of a smaller period took force\n\
        periods at whose end a plan of a larger period took force\n\
        slots refused with 33 for domains that the plan that waits has\n\
        slots refused with 33 for domains that the plan before had\n\
        yields refused with 21 of a domain that the plan that waits has\n\
        yields refused with 21 of a domain that the plan before had\n\
        slots taken with an offer from a domain that the plan that waits leaves out\n\
        yields taken of a domain that the plan that waits leaves out\n\
        domains with a reservation that kept asking through a completed period of a plan handed in\n\
        changed states in which a plan waits\n\
        changed states whose waiting plan is refused with 2\n\
        changed states whose waiting plan is refused with 9\n\
        changed states whose waiting plan is refused with 11\n\
        changed states whose waiting plan is refused with 10\n\
        changed states with a plan beside a flag that is off\n\
        changed states with a plan beside that flag that would be refused\n\
        changed states with such a plan that add up\n",
        k,
    )
}

// The lines of writebacks, from 0 on.
fn say_of_writes(rt: &impl Print, k: usize) -> io::Result<()> {
    say_nth(
        rt,
        b"domains with both reservations that kept asking through a completed period\n\
        writebacks granted on claim\n\
        writebacks granted without claim while access claim is left\n\
        writebacks granted with neither claim left\n\
        slots with 6 for a writeback without claim while its access claim is left\n\
        slots with 6 for somebody while writeback claims alone are waited on\n\
        slots where nobody waits, though loose is at most 0 and one with access claim offers a writeback\n\
        slots with 6 for somebody where loose is above 0 by access claims alone\n\
        slots with 3 for a writeback while access claim is left\n\
        yields refused with 23 that both claims together would allow\n\
        changed states with a writeback claim one above its due, writebacks below the reservation\n\
        changed states with a writeback claim one below its due, writebacks below the reservation\n\
        changed states with a writeback claim of 1, writebacks equal to the reservation\n\
        changed states with a writeback claim, writebacks above the reservation\n\
        changed states with writebacks above the reservation that add up\n",
        k,
    )
}

// The lines of forecasts, from 0 on.
fn say_of_forecasts(rt: &impl Print, k: usize) -> io::Result<()> {
    say_nth(
        rt,
        b"periods that begin with a yield by forecast\n\
        periods at whose end a new plan drops estimates\n\
        periods at whose end the plan in force again drops them\n\
        periods in which a marked domain has reclaimed before the last slot\n\
        periods in which a marked domain has written back before the last slot\n\
        yields taken of a domain that has yielded by forecast\n\
        yields of such a domain refused with 23 that claim and yielded together would allow\n\
        changed states with an estimate of a planned domain that is not marked\n\
        changed states with an estimate of an absent domain\n\
        changed states with estimates that add up\n\
        changed states with an estimate that is a NaN that add up\n\
        domains that have yielded by forecast and kept asking through a completed period\n",
        k,
    )
}

fn say_name(rt: &impl Print, k: usize) -> io::Result<()> {
    if k < PLANS {
        return say_first(rt, k);
    }
    if k < TWOFOLD {
        return say_of_plans(rt, k - PLANS);
    }
    if k < FORECASTS {
        say_of_writes(rt, k - TWOFOLD)
    } else {
        say_of_forecasts(rt, k - FORECASTS)
    }
}

// A name, and counts.
fn say_row(rt: &impl Print, name: &str, counts: &[u32]) -> io::Result<()> {
    print!(rt; "{name}")?;
    for count in counts {
        print!(rt; " {count}")?;
    }
    println!(rt)
}

// The counts that stand in rows: steps, estimates and needs, what the second engine was asked, and causes.
fn say_rows(rt: &impl Print, counts: &[u32; COUNTS]) -> io::Result<()> {
    say_row(rt, "slots by their steps, 0 to 17:", &counts[STEPS..BEFORE])?;
    say_row(
        rt,
        "estimates of marked domains before a close: none, NaN, 0, subnormal, negative, 4,096, whole, next above a whole \
        number, next below, above Q, others, -0, infinite, -infinite:",
        &counts[BEFORE..AFTER],
    )?;
    say_row(
        rt,
        "estimates after it, of the same sorts without the last three:",
        &counts[AFTER..NEEDS],
    )?;
    say_row(
        rt,
        "needs by estimate: 0 of Q 0, 0 and 1 of Q 1, and of a larger Q none, some, all but one, all:",
        &counts[NEEDS..SECOND],
    )?;
    say_row(
        rt,
        "slot calls put to the second engine, and of them refused by it:",
        &counts[SECOND..CAUSES],
    )?;
    report::say_causes(rt)?;
    say_row(rt, "", &counts[CAUSES + 1..])
}

pub fn lines(rt: &impl Print, seen: &Seen) -> io::Result<()> {
    for k in 0..STEPS {
        say_name(rt, k)?;
        println!(rt; ": {}", seen.counts[k])?;
    }
    say_rows(rt, &seen.counts)
}
