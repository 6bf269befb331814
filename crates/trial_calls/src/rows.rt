// The rows of Point 8: each call of a list is entered into them, and what was counted of them, and of turns, is printed.
use super::both::Told;
use super::text::Line;
use std::io;
use trial_kit::lines;
use trial_rows::{Event, Rows};
use trial_states::calls::Asks;

// Enters a call on a state of these words; tells whether no row is above the number of domains planned.
pub fn entered(rows: &mut Rows, words: &[u64], asks: Asks, t: Told) -> bool {
    match asks {
        Asks::Open => rows.begin(),
        _ if t.number != 0 => rows.note(Event::Refused),
        Asks::Slot => return rows.enter_slot(words, t.verdicts, t.complete),
        Asks::Yield => rows.note(Event::Yielded),
        Asks::HandIn => rows.note(Event::Waiting),
    }
    true
}

// Whether the row of the number that a line names is as long as it states.
pub fn is_row(rows: &Rows, l: Line) -> bool {
    rows.row(l.index(9)) == l.number(12, 2)
}

fn say_name(rt: &impl Print, k: usize) -> io::Result<()> {
    lines::say_nth(
        rt,
        b"times that a number passed and was not granted\n\
        longest row of such slots of a number, under one plan\n\
        rows that came to be n, the domains planned, of best effort\n\
        rows that came to be n of a domain\n\
        rows that came to be n across a period's end\n\
        rows that came to be n with a taken yield between\n\
        rows that came to be n with a refused call between\n\
        rows that came to be n with a plan taken between that still waits\n\
        rows that came to be n across an equal plan that took force\n\
        rows above n\n\
        rows above n, had a different plan not ended them\n",
        k,
    )
}

fn say_full(rt: &impl Print, rows: &Rows) -> io::Result<()> {
    print!(rt; "rows that came to be n, by n from 1 to 16:")?;
    for n in 1..=16 {
        print!(rt; " {}", rows.full(n))?;
    }
    println!(rt)
}

fn say_turns(rt: &impl Print, rows: &Rows) -> io::Result<()> {
    println!(rt;
        "turns and sizes of passing sets seen: {} of 306",
        rows.turns.sizes()
    )?;
    println!(rt; "turns and steps seen: {} of 306", rows.turns.steps())
}

pub fn lines(rt: &impl Print, rows: &Rows) -> io::Result<()> {
    for (k, count) in rows.counts().iter().enumerate() {
        say_name(rt, k)?;
        println!(rt; ": {count}")?;
    }
    say_full(rt, rows)?;
    say_turns(rt, rows)
}
