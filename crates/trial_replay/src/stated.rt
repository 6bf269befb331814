// Replays and questions whose text is stated, read as text lines. The first byte tells what a line is:
//   case NAME                             a case begins, with an empty plan file, zeros behind it, an empty script and an empty
//                                         file `ask`
//   file NNNNN NNNNN NNNNN NNNNN NNNNN NNNNN
//                                         a record more of the plan file: its first six numbers of two bytes, where 256
//                                         more than a domain number is a mark
//   at OOOO NNN                           a byte of the plan file
//   size NNNN                             the bytes of the plan file
//   > TEXT                                a line of the script
//   * NNNN TEXT                           so many such lines
//   + TEXT                                a part of a line of the script, without byte 10
//   byte NNN                              a byte of the script
//   ? TEXT                                a line of the file `ask`
//   / TEXT                                a part of it, without byte 10
//   item NNN                              a byte of it
//   < TEXT                                a line of the text that is due
//   run                                   the replay; the script and the text due begin anew
//   why                                   the question; the file `ask` and the text due begin anew, and the script stays
//   new                                   the script begins anew
//   kind NAME                             no case: the name of a kind, in the order of the kinds
use super::asking::Question;
use super::compare::{Outcome, Replay};
use super::{pieces, report};
use model_replay::text::Text;
use std::io;
use trial_kit::given::put_in_file;
use trial_kit::tally::Tally;
use trial_kit::{draw, lines, tally};
use trial_scripts::cases::BUFFER;
use trial_scripts::lines::put_part;

// The kind of all stated cases, behind the others.
const STATED: u32 = 44;

// A file, a script or a text of so many bytes at most, and how many it has.
#[derive(Clone, Copy)]
struct Buffer<const N: usize> {
    bytes: [u8; N],
    size: usize,
}

impl<const N: usize> Buffer<N> {
    fn new() -> Buffer<N> {
        Buffer {
            bytes: [0; N],
            size: 0,
        }
    }

    fn given(&self) -> &[u8] {
        &self.bytes[..self.size.min(N)]
    }

    // A line of the script, of the file `ask` or of the text due.
    fn put(&mut self, given: &[u8], at: usize) {
        let mut to = Text::from(&mut self.bytes, self.size);
        put_line(&mut to, given, at);
        let size = to.end();
        self.size = size;
    }
}

// What was compared so far; the plan file, the script, the file `ask` and the text due of the case at hand; where its name stands,
// its number, and the periods that its replays closed.
#[derive(Clone, Copy)]
struct Stand {
    tally: Tally,
    file: Buffer<1040>,
    script: Buffer<131072>,
    ask: Buffer<64>,
    due: Buffer<4096>,
    named: usize,
    case: u32,
    periods: u32,
}

// The line behind its first two bytes.
fn put_rest(to: &mut Text<'_>, given: &[u8], from: usize) {
    let end = lines::line_end(given, from);
    put_part(to, given, from.wrapping_add(2), end);
}

// So many times the line that stands behind some bytes more, and byte 10.
fn put_whole(to: &mut Text<'_>, given: &[u8], from: usize, times: u32) {
    for _ in 0..times {
        put_rest(to, given, from);
        to.byte(b'\n');
    }
}

// A line of the script, of the file `ask` or of the text due.
fn put_line(to: &mut Text<'_>, given: &[u8], at: usize) {
    match lines::byte(given, at) {
        b'>' | b'?' | b'<' => put_whole(to, given, at, 1),
        b'+' | b'/' => put_rest(to, given, at),
        b'*' => put_whole(to, given, at.wrapping_add(5), lines::small(given, at, 2, 4)),
        _ => to.byte(draw::low(lines::small(given, at, 5, 3))),
    }
}

impl Stand {
    fn replay(&self) -> Replay<'_> {
        let filled = draw::low(self.case);
        Replay {
            file: self.file.given(),
            script: self.script.given(),
            lent: BUFFER,
            filled,
            parts: pieces::drawn(filled),
        }
    }

    // A replay or a question, behind which the file `ask` and the text due begin anew.
    fn count(&mut self, o: Outcome) {
        let tally = tally::counted(self.tally, STATED, self.case, o.verdict());
        self.tally = tally;
        self.ask.size = 0;
        self.due.size = 0;
        self.periods = self.periods.wrapping_add(o.periods);
    }

    fn replay_line(&mut self) {
        let o = self.replay().outcome_as(self.due.given());
        self.count(o);
        self.script.size = 0;
    }

    // The script of a question stays.
    fn question_line(&mut self) {
        let question = Question {
            ask: self.ask.given(),
            of: self.replay(),
        };
        let o = question.outcome_as(self.due.given());
        self.count(o);
    }

    // The counts of the case at hand are printed, and the next begins with zeros; its name is behind the word.
    fn case_line(&mut self, rt: &impl Print, given: &[u8], at: usize) -> io::Result<()> {
        if self.case > 0 {
            lines::say_line(rt, given, self.named)?;
            report::counts_line(rt, self.tally, self.periods)?;
        }
        let fresh = tally::next_kind(self.tally);
        self.tally = fresh;
        self.file = Buffer::new();
        self.script.size = 0;
        self.ask.size = 0;
        self.due.size = 0;
        self.named = at.wrapping_add(5);
        self.case = tally::more(self.case);
        self.periods = 0;
        Ok(())
    }

    fn file_line(&mut self, given: &[u8], at: usize) {
        let size = put_in_file(&mut self.file.bytes, self.file.size, given, at);
        self.file.size = size;
    }

    fn line(&mut self, rt: &impl Print, given: &[u8], at: usize) -> io::Result<()> {
        match lines::byte(given, at) {
            b'c' => self.case_line(rt, given, at)?,
            b'r' => self.replay_line(),
            b'w' => self.question_line(),
            b'f' | b'a' | b's' => self.file_line(given, at),
            b'>' | b'*' | b'+' | b'b' => self.script.put(given, at),
            b'n' => self.script.size = 0,
            b'?' | b'/' | b'i' => self.ask.put(given, at),
            b'<' => self.due.put(given, at),
            _ => {}
        }
        Ok(())
    }
}

// All cases of the text. Its last line begins a case without a name, so that the one before is printed.
// A `while`: the place goes from line to line.
pub fn cases(rt: &impl Print, before: Tally, given: &[u8]) -> io::Result<Tally> {
    let mut stand = Stand {
        tally: before,
        file: Buffer::new(),
        script: Buffer::new(),
        ask: Buffer::new(),
        due: Buffer::new(),
        named: 0,
        case: 0,
        periods: 0,
    };
    let mut at: usize = 0;
    while at < given.len() {
        stand.line(rt, given, at)?;
        at = lines::after_line(given, at);
    }
    Ok(stand.tally)
}
