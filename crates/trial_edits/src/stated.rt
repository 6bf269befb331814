// Cases whose outcomes are stated, read as text lines. The second byte tells what a line is:
//   case NAME                      a case begins, with an empty plan file and zeros behind it
//   file NNNNN NNNNN NNNNN NNNNN NNNNN NNNNN
//                                  a record more of the plan file: its first six numbers of two bytes, where 256 more than a
//                                  domain number is a mark
//   at OOOO NNN                    a byte of the plan file
//   size NNNN                      the bytes of the plan file
//   drop N                         the edit: the domain of this number is dropped
//   add N Q R W V M                a domain is added; V is the writeback reservation, M 1 where it is marked
//   compact                        the file is compacted
//   rescue                         the file is rescued
//   then K N N N N N N             record K of the file due after the edit: six numbers of two bytes, and zeros
//   due N K                        the edit tells this refusal (0 for none) and place, and leaves the file due
//   due N K R                      a rescue tells these and how many records it kept, which may not be left out
// Numbers of the lines from `drop` on have any count of digits, up to 64 bits. The file due is the plan file as it stands when
// the edit is named, but for what `then` says, and is the plan file behind `due`. All else begins anew with `case`.
use super::compare;
use edit::NewDomain;
use std::io;
use trial_files::calls::Call;
use trial_kit::given::put_in_file;
use trial_kit::tally::{Tally, Verdict};
use trial_kit::{bytes, lines, report, tally};

// The kind of all stated cases.
const STATED: u32 = 0;

// Where the reader stands: the case's number and the text from its line on, the bytes so far of the plan file, and the text from
// the line of the edit on.
#[derive(Clone, Copy)]
struct Stand<'a> {
    case: u32,
    named: &'a [u8],
    size: usize,
    called: &'a [u8],
}

// The plan file, and the file due.
#[derive(Drop)]
struct Held {
    file: [u8; 1040],
    due: [u8; 1040],
}

// The number with a digit more, kept to 64 bits.
fn with_digit(value: u64, digit: u8) -> u64 {
    (value % 1844674407370955162 * 10).wrapping_add(u64::from(digit))
}

// A byte as a digit; 0 for what is none.
fn digit(b: u8) -> u8 {
    match b {
        b'0'..=b'9' => b - b'0',
        _ => 0,
    }
}

// What stands behind so many spaces of a text's first line; nothing where it has not so many.
fn behind(text: &[u8], spaces: usize) -> &[u8] {
    let line = &text[..lines::line_end(text, 0)];
    let mut parts = line.splitn(spaces.wrapping_add(1), |&b| b == b' ');
    parts.nth(spaces).unwrap_or(&[])
}

// The number that stands there, or 0.
fn field(text: &[u8], spaces: usize) -> u64 {
    let digits = behind(text, spaces).iter().take_while(|&&b| b > b' ');
    digits.fold(0, |value, &b| with_digit(value, digit(b)))
}

fn small(text: &[u8], spaces: usize) -> u32 {
    (field(text, spaces) % 65536) as u32
}

// The edit of a line.
fn call_of(text: &[u8]) -> Call {
    match lines::byte(text, 0) {
        b'd' => Call::Drop(field(text, 1)),
        b'a' => Call::Add(NewDomain {
            number: field(text, 1),
            reservation: field(text, 2),
            reclaimcap: field(text, 3),
            writebackcap: field(text, 4),
            writebackreservation: field(text, 5),
            marked: field(text, 6) == 1,
        }),
        b'r' => Call::Rescue,
        _ => Call::Compact,
    }
}

// An edit is named: the file due is the plan file, until more is said.
fn with_call<'a>(s: Stand<'a>, text: &'a [u8], held: &mut Held) -> Stand<'a> {
    let file = held.file;
    held.due = file;
    Stand { called: text, ..s }
}

fn put_record_due(due: &mut [u8], text: &[u8]) {
    bytes::put_record(
        due,
        small(text, 1),
        [
            small(text, 2),
            small(text, 3),
            small(text, 4),
            small(text, 5),
            small(text, 6),
            small(text, 7),
        ],
    );
}

// The next case; its name is behind the word.
fn next_case<'a>(s: Stand<'a>, text: &'a [u8], held: &mut Held) -> Stand<'a> {
    held.file = [0; 1040];
    Stand {
        case: tally::more(s.case),
        named: text,
        size: 0,
        called: text,
    }
}

// The second byte of a line.
fn sort(text: &[u8]) -> u8 {
    lines::byte(text, 1)
}

// What a line says of the file due.
fn put_due(text: &[u8], due: &mut [u8]) {
    if sort(text) == b'h' {
        put_record_due(due, text);
    }
}

// The stand after a line of the plan file.
fn with_bytes<'a>(s: Stand<'a>, text: &[u8], file: &mut [u8]) -> Stand<'a> {
    let size = put_in_file(file, s.size, text, 0);
    Stand { size, ..s }
}

// The stand after a line, which may begin the plan file anew or put bytes into it, or name an edit.
fn stand_after<'a>(s: Stand<'a>, text: &'a [u8], held: &mut Held) -> Stand<'a> {
    match sort(text) {
        b'a' => next_case(s, text, held),
        b'i' | b't' => with_bytes(s, text, &mut held.file),
        b'r' | b'd' | b'o' | b'e' => with_call(s, text, held),
        _ => s,
    }
}

// Whether so many records kept are due of an edit: of a rescue the number has to stand there.
fn is_kept_due(text: &[u8], c: Call, kept: u32) -> bool {
    match c {
        Call::Rescue => !behind(text, 3).is_empty() && field(text, 3) == u64::from(kept),
        _ => true,
    }
}

// The edit by the library and the model, which have to tell and to leave what is due; the file due is the plan file then.
fn compared(s: Stand<'_>, text: &[u8], held: &mut Held, seen: &mut [u32]) -> Verdict {
    let size = s.size.min(1040);
    let c = call_of(s.called);
    let o = compare::tried(&mut held.file[..size], c, seen);
    let v = o.verdict;
    let told = v.number == small(text, 1)
        && o.place == small(text, 2)
        && is_kept_due(text, c, o.kept);
    let due = held.due;
    let same = v.same && told && held.file == due;
    held.file = due;
    Verdict {
        number: v.number,
        same,
    }
}

// The counts of a case are printed before the next begins.
fn closed(rt: &impl Print, t: Tally, s: Stand<'_>) -> io::Result<Tally> {
    if s.case > 0 {
        lines::say_line(rt, s.named, 5)?;
        report::counts_line(rt, t)?;
    }
    Ok(tally::next_kind(t))
}

// The tally after a line.
fn tally_after(
    rt: &impl Print,
    t: Tally,
    s: Stand<'_>,
    text: &[u8],
    held: &mut Held,
    seen: &mut [u32],
) -> io::Result<Tally> {
    match sort(text) {
        b'a' => closed(rt, t, s),
        b'u' => Ok(tally::counted(t, STATED, s.case, compared(s, text, held, seen))),
        _ => Ok(t),
    }
}

// All cases of the text. Its last line begins a case without a name, so that the one before is printed.
pub fn cases(rt: &impl Print, before: Tally, given: &[u8], seen: &mut [u32]) -> io::Result<Tally> {
    let mut held = Held {
        file: [0; 1040],
        due: [0; 1040],
    };
    let mut t = before;
    let mut s = Stand {
        case: 0,
        named: given,
        size: 0,
        called: given,
    };
    let mut text = given;
    // No `for` over split lines: what is read behind the end of a short line is the next one's, as `lines` has it.
    while !text.is_empty() {
        let tally = tally_after(rt, t, s, text, &mut held, seen)?;
        let stand = stand_after(s, text, &mut held);
        t = tally;
        s = stand;
        put_due(text, &mut held.due);
        text = lines::next_line(text);
    }
    Ok(t)
}
