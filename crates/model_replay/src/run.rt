// A script carried out byte by byte on a plan file, and the text that it prints.
use super::form;
use super::form::{Form, Line};
use super::text::Text;
use model_calls::cells;

// How a replay ended: the bytes of its text in the buffer, the refusal of its plan or line, or 0, and the periods closed. The
// refusal stays the document's number: the tests compare and count it as a number.
#[derive(Clone, Copy)]
pub struct Ended {
    pub bytes: usize,
    pub number: u32,
    pub periods: u64,
}

// Where a script stands: the number of the line at hand, what was read of it, and the refusal of it.
#[derive(Clone, Copy)]
pub struct At {
    pub row: u64,
    pub line: Line,
    pub refused: Option<u32>,
}

// The field of a domain; none of an absent one.
fn put_domain(out: &mut Text<'_>, s: &[u64], counts: &[u64], n: usize) {
    if cells::get(s, n, cells::PRESENT) != 0 {
        out.field(b" ", n as u64);
        out.field(b":", cells::get(counts, n, cells::RESERVED));
        out.field(b"+", cells::get(counts, n, cells::RECLAIMED));
        out.field(b"-", cells::get(counts, n, cells::YIELDED));
        out.field(b"w", cells::get(counts, n, cells::WRITEBACKS));
    }
}

// The line of a period that was closed.
fn put_period(out: &mut Text<'_>, s: &[u64], counts: &[u64], closed: u64) {
    out.number(closed);
    out.field(b" ", cells::get(counts, 0, cells::IDLE));
    out.field(b" ", cells::get(counts, 0, cells::BEST));
    for n in 1..17 {
        put_domain(out, s, counts, n);
    }
    out.field(b" s", cells::get(counts, 0, cells::STEPS));
    out.byte(10);
}

// The refusal of a line that is carried out.
fn carried_out(l: Line, s: &mut [u64], offers: &[u8], counts: &mut [u64]) -> Option<u32> {
    let number = if l.form == form::SLOT {
        let mut verdicts = [0u8; 17];
        let d = model_calls::slot(s, offers, &mut verdicts, counts);
        d.number
    } else if form::is_yield(l.form) {
        model_calls::take_yield(s, l.domain, l.k)
    } else {
        41
    };
    (number != 0).then_some(number)
}

// A line is whole: it is carried out, and a period that it closes is printed.
fn line_end(a: At, s: &mut [u64], offers: &[u8], out: &mut Text<'_>) -> At {
    let mut counts = [0u64; 238];
    let before = cells::get(s, 0, cells::CLOSED);
    let refused = carried_out(a.line, s, offers, &mut counts);
    let closed = cells::get(s, 0, cells::CLOSED);
    if closed != before {
        put_period(out, s, &counts, closed);
    }
    next_line(a, refused)
}

// The next line, or this one where it is refused.
fn next_line(a: At, refused: Option<u32>) -> At {
    At {
        row: match refused {
            None => a.row.wrapping_add(1),
            Some(_) => a.row,
        },
        line: form::nothing(),
        refused,
    }
}

// One byte more; none is looked at behind a refusal.
pub fn with_byte(a: At, b: u8, s: &mut [u64], offers: &mut [u8], out: &mut Text<'_>) -> At {
    if a.refused.is_some() {
        return a;
    }
    if b == 10 {
        return line_end(a, s, offers, out);
    }
    let line = form::with_byte(a.line, b, offers);
    At { line, ..a }
}

// Where a script begins, of which nothing is read.
pub fn first_line() -> At {
    At {
        row: 1,
        line: form::nothing(),
        refused: None,
    }
}

// All bytes of a script.
fn with_script(script: &[u8], s: &mut [u64], out: &mut Text<'_>) -> At {
    let mut offers = [0u8; 17];
    let mut a = first_line();
    for &b in script {
        a = with_byte(a, b, s, &mut offers, out);
    }
    a
}

// The refusal of a script whose bytes are all read: a part of a line left at its end is refused too.
fn refusal(a: At) -> Option<u32> {
    let l = a.line;
    a.refused.or((l.form != Form::Nothing).then_some(41))
}

// The last line of a run: the slots decided, or the refusal.
fn put_last(out: &mut Text<'_>, row: u64, refused: Option<u32>, decided: u64) {
    match refused {
        Some(number) => {
            out.field(b"line ", row);
            out.field(b" refused ", u64::from(number));
        }
        None => out.field(b"open ", decided),
    }
    out.byte(10);
}

pub fn put_refused_plan(out: &mut Text<'_>, number: u32, place: u32) {
    out.field(b"plan refused ", u64::from(number));
    out.field(b" at ", u64::from(place));
    out.byte(10);
}

fn opened(script: &[u8], s: &mut [u64], out: &mut Text<'_>) -> Option<u32> {
    out.text(b"period idle best domains\n");
    let a = with_script(script, s, out);
    let refused = refusal(a);
    put_last(out, a.row, refused, cells::get(s, 0, cells::DECIDED));
    refused
}

// The whole output for a plan file and a script.
pub fn replay(file: &[u8], script: &[u8], out: &mut [u8]) -> Ended {
    let a = model_plans::read(file);
    let mut out = Text::from(out, 0);
    if a.number != 0 {
        put_refused_plan(&mut out, a.number, a.place);
        return Ended {
            bytes: out.end(),
            number: a.number,
            periods: 0,
        };
    }
    let domains = a.domains;
    let mut s = [0u64; 476];
    model_calls::open(a.period, domains, &mut s);
    let refused = opened(script, &mut s, &mut out);
    Ended {
        bytes: out.end(),
        number: refused.unwrap_or(0),
        periods: cells::get(&s, 0, cells::CLOSED),
    }
}
