// The rows of a list of calls, counted from the verdicts told. A number's row is in how many decided slots in a row, under one
// plan, it passed the rules and was not granted: verdict 2. With n domains planned no row is above n (Point 8 of document 02).
#![tactic(auto)]

ghost use Rattle.std.specs.Prelude.{◌<◌};

pub mod turns;

use turns::Turns;

// The events that leave a row as it is: a period's end, a yield taken, a call refused, a plan taken that still waits; and a plan
// that took force, where it is equal to the plan before.
#[derive(Clone, Copy, Debug, PartialEq, Eq)]
pub enum Event {
    Closed,
    Yielded,
    Refused,
    Waiting,
    Force,
}

// One list: each number's row, and its row whatever plans took force in it; the slots decided; of each event, how many were
// decided when it last came; the domains planned in the last decided slot and in the one before; and the plan of the last one, as
// the first words of its state.
#[derive(Clone, Copy)]
struct List {
    rows: [u64; 17],
    any_plan: [u64; 17],
    slots: u64,
    last: [u64; 5],
    domains: u64,
    before: u64,
    plan: [u64; 238],
}

const EMPTY: List = List {
    rows: [0; 17],
    any_plan: [0; 17],
    slots: 0,
    last: [0; 5],
    domains: 0,
    before: 0,
    plan: [0; 238],
};

// The counts of all lists: how often a number was put off; the longest row; of the rows that came to be n those of best effort,
// of a domain, and with each event between their slots; the rows that came above n, and those that would have, whatever plans
// took force; and by n the rows that came to be n.
#[derive(Clone, Copy)]
struct Counts {
    put_off: u64,
    longest: u64,
    best: u64,
    domain: u64,
    events: [u64; 5],
    above: u64,
    unended: u64,
    full: [u64; 17],
}

// The rows of the list at hand, what was counted in all lists, and what was seen of turns.
#[derive(Clone, Copy)]
pub struct Rows {
    list: List,
    counts: Counts,
    pub turns: Turns,
}

// The flag of a state's words that tells whether a plan waits.
const WAITS: usize = 239;

fn word(words: &[u64], k: usize) -> u64 {
    words.get(k).copied().unwrap_or(0)
}

// A count as it is printed.
fn printed(count: u64) -> u32 {
    (count % 4294967296) as u32
}

fn raise(count: &mut u64) {
    *count = count.wrapping_add(1);
}

// Whether a word of a state's first 238 is one of its plan: the period; of a domain whether it is planned, its numbers, its mark.
fn is_of_plan(k: usize) -> bool {
    if k < 14 {
        return k == 0;
    }
    matches!(k % 14, 0..=4 | 11)
}

// How many domains are planned in a state of these words.
fn planned(words: &[u64]) -> u64 {
    (1..=16).filter(|&n| word(words, 14 * n) != 0).count() as u64
}

impl List {
    // Whether the plan in force in a state of these words is the one of the last decided slot.
    fn is_kept(&self, words: &[u64]) -> bool {
        (0..238).all(|k| !is_of_plan(k) || self.plan[k] == word(words, k))
    }

    // The plan of a slot that is decided: one that is not that of the slot before ends all rows.
    fn enter_plan(&mut self, words: &[u64]) {
        self.before = self.domains;
        if self.is_kept(words) {
            return;
        }
        for k in 0..238 {
            self.plan[k] = word(words, k);
        }
        self.domains = planned(words);
        self.rows = [0; 17];
    }

    // Whether an event came between the slots of a row of this length that the last decided slot belongs to.
    fn is_between(&self, event: usize, length: u64) -> bool
        requires { event < 5 }
    {
        self.last[event].wrapping_add(length) > self.slots
    }

    // Whether no row is above n.
    fn is_within(&self) -> bool {
        self.rows.iter().all(|&length| length <= self.domains)
    }
}

impl Counts {
    // Counts a row that became longer, and is of this length.
    fn enter_row(&mut self, list: &List, number: usize, length: u64) {
        self.longest = self.longest.max(length);
        raise(&mut self.put_off);
        if length == list.domains.wrapping_add(1) {
            raise(&mut self.above);
        }
        if length == list.domains {
            raise(if number == 0 {
                &mut self.best
            } else {
                &mut self.domain
            });
            raise(&mut self.full[(length % 17) as usize]);
            self.enter_events(list, length);
        }
    }

    // Counts a row that came to be n, by the events between its slots.
    fn enter_events(&mut self, list: &List, length: u64) {
        for event in 0..5 {
            if list.is_between(event, length) {
                raise(&mut self.events[event]);
            }
        }
    }

    // Counts a row whatever plans took force in it, where it is above n and was not in the slot before.
    fn enter_any_plan(&mut self, list: &List, length: u64) {
        if length > list.domains && length <= list.before.wrapping_add(1) {
            raise(&mut self.unended);
        }
    }
}

impl Rows {
    pub fn new() -> Rows {
        Rows {
            list: EMPTY,
            counts: Counts {
                put_off: 0,
                longest: 0,
                best: 0,
                domain: 0,
                events: [0; 5],
                above: 0,
                unended: 0,
                full: [0; 17],
            },
            turns: Turns::new(),
        }
    }

    // Begins a list; what was counted stays.
    pub fn begin(&mut self) {
        self.list = EMPTY;
    }

    // A number's row.
    pub fn row(&self, number: usize) -> u64 {
        self.list.rows[number % 17]
    }

    // The counts but those by n, in the order in which they are printed.
    pub fn counts(&self) -> [u32; 11] {
        let c = self.counts;
        let [closed, yielded, refused, waiting, force] = c.events;
        let counts = [
            c.put_off, c.longest, c.best, c.domain, closed, yielded, refused, waiting, force,
            c.above, c.unended,
        ];
        counts.map(printed)
    }

    // How many rows came to be n.
    pub fn full(&self, n: usize) -> u32 {
        printed(self.counts.full[n % 17])
    }

    // An event after the slots decided so far.
    pub fn note(&mut self, event: Event) {
        self.list.last[event as usize] = self.list.slots;
    }

    // The verdict of a number.
    fn enter_verdict(&mut self, number: usize, verdict: u8)
        requires { number < 17 }
    {
        if verdict != 2 {
            self.list.rows[number] = 0;
            self.list.any_plan[number] = 0;
            return;
        }
        raise(&mut self.list.rows[number]);
        raise(&mut self.list.any_plan[number]);
        let list = self.list;
        self.counts.enter_row(&list, number, list.rows[number]);
        self.counts.enter_any_plan(&list, list.any_plan[number]);
    }

    // The end of a period, where it is one: no plan waits any more, and the one that did is in force.
    fn close(&mut self, complete: bool, waited: bool) {
        if !complete {
            return;
        }
        self.note(Event::Closed);
        self.list.last[Event::Waiting as usize] = 0;
        if waited {
            self.note(Event::Force);
        }
    }

    // A slot decided on a state of these words, its verdicts, and whether it completes the period; tells whether no row is above
    // n.
    pub fn enter_slot(&mut self, words: &[u64], verdicts: [u8; 18], complete: bool) -> bool {
        self.list.enter_plan(words);
        raise(&mut self.list.slots);
        for number in 0..17 {
            self.enter_verdict(number, verdicts[number]);
        }
        self.close(complete, word(words, WAITS) != 0);
        self.list.is_within()
    }
}
