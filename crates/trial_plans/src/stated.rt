// Cases whose outcomes are stated, read as text lines. The first byte tells what a line is:
//   case NAME                             a case begins, with an empty plan file, zeros behind it, and nothing due
//   file NNNNN NNNNN NNNNN NNNNN NNNNN NNNNN
//                                         a record more of the plan file: its first six numbers of two bytes, where 256
//                                         more than a domain number is a mark
//   at OOOO NNN                           a byte of the plan file
//   size NNNN                             the bytes of the plan file
//   plan PPPPP                            the period of the plan that is due
//   domain NN QQQQQ RRRRR WWWWW VVVVV     a domain of it; V is the writeback reservation
//   beside NN QQQQQ RRRRR WWWWW VVVVV     numbers of a domain that it has not planned
//   mark NN                               a mark of a domain, planned or not, behind the domain's line
//   read NN KKKKK                         reading tells this refusal and place, and the plan due (zeros where none is)
//   earlier NN KKKKK                      the same of reading by the earlier rule, which takes leftovers
//   told NNNNNNN                          a sum more that is due
//   walk                                  the sums told are those due, and no other
//   value NN KKKKK                        the plan due is held as a value: checking and writing it tell this refusal and place
//   over                                  the plan due is written over the first bytes of the plan file
// What is due begins anew after `read`, `earlier`, `walk`, `value` and `over`.
use super::seen::Outcome;
use super::{compare, report, seen};
use model_plans::{Answer, Sums, words};
use std::io;
use trial_kit::given::put_in_file;
use trial_kit::tally::{Tally, Verdict};
use trial_kit::{lines, tally, values};

// The kind of all stated cases.
const STATED: u32 = 0;

// Where the reader stands: the case's number and the text from its line on, the bytes so far of the plan file, and what is due:
// the period and the words of a plan, and sums.
#[derive(Clone, Copy)]
struct Stand<'a> {
    case: u32,
    named: &'a [u8],
    size: usize,
    period: u32,
    domains: [u32; 96],
    sums: Sums,
}

// A stand with this period due, no domains and no sums.
fn begun<'a>(case: u32, named: &'a [u8], size: usize, period: u32) -> Stand<'a> {
    Stand {
        case,
        named,
        size,
        period,
        domains: [0; 96],
        sums: Sums {
            records: 0,
            told: [0; 16],
        },
    }
}

// The same stand with a plan of this period due, and nothing else.
fn anew<'a>(p: Stand<'a>, period: u32) -> Stand<'a> {
    begun(p.case, p.named, p.size, period)
}

// A domain more, planned or not.
fn with_domain<'a>(p: Stand<'a>, text: &[u8], planned: bool) -> Stand<'a> {
    let n = lines::small(text, 0, 7, 2);
    let mut domains = words::with_domain(
        p.domains,
        n,
        lines::small(text, 0, 10, 5),
        lines::small(text, 0, 16, 5),
        lines::small(text, 0, 22, 5),
        lines::small(text, 0, 28, 5),
    );
    domains[((n + 15) % 16 * 6) as usize] = u32::from(planned);
    Stand { domains, ..p }
}

fn with_mark<'a>(p: Stand<'a>, domain: u32) -> Stand<'a> {
    let domains = words::with_mark(p.domains, domain, 1);
    Stand { domains, ..p }
}

// A sum more. Of more than sixteen the count alone tells.
fn with_sum<'a>(p: Stand<'a>, sum: u32) -> Stand<'a> {
    let mut sums = p.sums;
    sums.told[(sums.records % 16) as usize] = sum;
    sums.records = tally::more(sums.records);
    Stand { sums, ..p }
}

// The next case; its name is behind the word.
fn next_case<'a>(p: Stand<'a>, text: &'a [u8], file: &mut [u8]) -> Stand<'a> {
    file.fill(0);
    begun(tally::more(p.case), text, 0, 0)
}

// The library writes the plan due over the plan file; one that is refused leaves every byte.
fn written_over<'a>(p: Stand<'a>, file: &mut [u8]) -> Stand<'a> {
    let size = p.size.min(file.len());
    compare::write_over(&mut file[..size], values::plan_of(p.period, p.domains));
    anew(p, 0)
}

// The stand after a line.
fn stand_after<'a>(p: Stand<'a>, text: &'a [u8], file: &mut [u8]) -> Stand<'a> {
    match lines::byte(text, 0) {
        b'c' => next_case(p, text, file),
        b'o' => written_over(p, file),
        b'r' | b'e' | b'w' | b'v' => anew(p, 0),
        b'p' => anew(p, lines::small(text, 0, 5, 5)),
        b'd' => with_domain(p, text, true),
        b'b' => with_domain(p, text, false),
        b'm' => with_mark(p, lines::small(text, 0, 5, 2)),
        b't' => with_sum(p, (lines::number(text, 0, 5, 7) % 4294967296) as u32),
        b'f' | b'a' | b's' => Stand {
            size: put_in_file(file, p.size, text, 0),
            ..p
        },
        _ => p,
    }
}

// What reading has to tell; the refusal stands at an offset of the line.
fn due(p: Stand<'_>, text: &[u8], offset: usize) -> Answer {
    Answer {
        number: lines::small(text, 0, offset, 2),
        place: lines::small(text, 0, offset.wrapping_add(3), 5),
        period: p.period,
        domains: p.domains,
    }
}

// Whether the model tells what is due.
fn holds(p: Stand<'_>, text: &[u8], file: &[u8]) -> bool {
    match lines::byte(text, 0) {
        b'r' => model_plans::read(file) == due(p, text, 5),
        b'e' => model_plans::read_with_leftovers(file) == due(p, text, 8),
        _ => model_plans::sums(file) == p.sums,
    }
}

// The plan due, held as a value.
fn value_compared(p: Stand<'_>, text: &[u8]) -> Outcome {
    let told = model_plans::check(p.period, p.domains);
    let v = compare::value(
        values::plan_of(p.period, p.domains),
        compare::BUFFER,
        p.case,
    );
    let as_due = told.number == lines::small(text, 0, 6, 2)
        && told.place == lines::small(text, 0, 9, 5);
    seen::of_value(Verdict {
        number: v.number,
        same: v.same && as_due,
    })
}

fn compared(p: Stand<'_>, text: &[u8], file: &[u8]) -> Outcome {
    if lines::byte(text, 0) == b'v' {
        return value_compared(p, text);
    }
    let v = compare::file(file, p.case, holds(p, text, file));
    seen::of_file(file, v)
}

// The counts of a case are printed before the next begins.
fn closed(rt: &impl Print, t: Tally, p: Stand<'_>) -> io::Result<Tally> {
    if p.case > 0 {
        lines::say_line(rt, p.named, 5)?;
        report::counts_line(rt, t)?;
    }
    Ok(tally::next_kind(t))
}

// The tally after a line.
fn tally_after(
    rt: &impl Print,
    t: Tally,
    p: Stand<'_>,
    text: &[u8],
    file: &[u8],
    seen: &mut [u32],
) -> io::Result<Tally> {
    let size = p.size.min(file.len());
    match lines::byte(text, 0) {
        b'c' => closed(rt, t, p),
        b'r' | b'e' | b'w' | b'v' => {
            let outcome = compared(p, text, &file[..size]);
            Ok(seen::counted(t, STATED, p.case, outcome, seen))
        }
        _ => Ok(t),
    }
}

// All cases of the text. Its last line begins a case without a name, so that the one before is printed.
pub fn cases(rt: &impl Print, before: Tally, given: &[u8], seen: &mut [u32]) -> io::Result<Tally> {
    let mut file = [0u8; 1040];
    let mut t = before;
    let mut p = begun(0, given, 0, 0);
    let mut text = given;
    // No `for` over split lines: what is read behind the end of a short line is the next one's, as `lines` has it.
    while !text.is_empty() {
        let tally = tally_after(rt, t, p, text, &file, seen)?;
        let stand = stand_after(p, text, &mut file);
        t = tally;
        p = stand;
        text = lines::next_line(text);
    }
    Ok(t)
}
