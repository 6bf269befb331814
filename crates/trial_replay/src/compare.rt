// The library and the model on one replay, or on one line.
use super::pieces;
use super::pieces::Parts;
use model_replay::text::Text;
use model_replay::{Ended, Form};
use script::Line;
use trial_kit::tally::Verdict;
use trial_scripts::cases::BUFFER;

// What the model tells, the refusal and the periods closed, and whether the library does all as the model does.
#[derive(Clone, Copy)]
pub struct Outcome {
    pub number: u32,
    pub periods: u32,
    pub same: bool,
}

impl Outcome {
    pub fn verdict(self) -> Verdict {
        Verdict {
            number: self.number,
            same: self.same,
        }
    }
}

// A plan file and a script; how many bytes are lent for the text, out of a buffer filled so; and the parts that the script comes
// in where it does not come whole.
#[derive(Clone, Copy)]
pub struct Replay<'a> {
    pub file: &'a [u8],
    pub script: &'a [u8],
    pub lent: usize,
    pub filled: u8,
    pub parts: Parts,
}

impl Replay<'_> {
    // What the library writes into a buffer of which the first bytes are lent.
    fn written_whole(self, out: &mut [u8]) -> usize {
        let lent = self.lent.min(out.len());
        script::replay(self.file, self.script, &mut out[..lent])
    }

    // The same, with the script in parts.
    fn written_in_parts(self, out: &mut [u8]) -> usize {
        let lent = self.lent.min(out.len());
        pieces::replayed(self.file, self.script, &mut out[..lent], self.parts)
    }

    // What the model writes into it.
    fn due(self, out: &mut [u8]) -> Ended {
        let lent = self.lent.min(out.len());
        model_replay::replay(self.file, self.script, &mut out[..lent])
    }

    // Whether the library writes a text of so many bytes into a buffer filled as that of the text.
    fn whole_agrees(self, text: &[u8; BUFFER], bytes: usize) -> bool {
        let mut out = [self.filled; BUFFER];
        self.written_whole(&mut out) == bytes && out == *text
    }

    fn parts_agree(self, text: &[u8; BUFFER], bytes: usize) -> bool {
        let mut out = [self.filled; BUFFER];
        self.written_in_parts(&mut out) == bytes && out == *text
    }

    // The whole output, of the script whole and in parts.
    pub fn outcome(self) -> Outcome {
        let mut text = [self.filled; BUFFER];
        let e = self.due(&mut text);
        Outcome {
            number: e.number,
            periods: (e.periods % 65536) as u32,
            same: self.whole_agrees(&text, e.bytes) && self.parts_agree(&text, e.bytes),
        }
    }

    // The whole output of both, compared with a text that is stated.
    pub fn outcome_as(self, due: &[u8]) -> Outcome {
        let mut text = [self.filled; BUFFER];
        let bytes = put_due(&mut text, due);
        let o = self.outcome();
        Outcome {
            same: o.same && self.whole_agrees(&text, bytes),
            ..o
        }
    }
}

// Puts a text that is due, and answers its bytes.
pub fn put_due(out: &mut [u8], due: &[u8]) -> usize {
    let mut to = Text::from(out, 0);
    to.text(due);
    to.end()
}

// Whether the model reads a line as one of the two forms.
fn taken(form: Form) -> bool {
    form == model_replay::SLOT || model_replay::is_yield(form)
}

// Whether what the library read of a line is what the model read; offers it leaves untouched are those of before.
fn same_line(
    l: Line,
    m: model_replay::Line,
    offers: &[u8; 17],
    own: &[u8; 17],
    before: &[u8; 17],
) -> bool {
    match l {
        Line::Slot => m.form == model_replay::SLOT && offers == own,
        Line::Yield { domain, count } => {
            model_replay::is_yield(m.form) && offers == before && domain == m.domain && count == m.k
        }
        Line::Bad(number) => number == 41 && offers == before && !taken(m.form),
    }
}

// One line without its byte 10.
pub fn line(text: &[u8], filled: u8) -> Outcome {
    let before = [filled; 17];
    let mut offers = before;
    let mut own = before;
    let l = script::read_line(text, &mut offers);
    let m = model_replay::read_line(text, &mut own);
    Outcome {
        number: if taken(m.form) { 0 } else { 41 },
        periods: 0,
        same: same_line(l, m, &offers, &own, &before),
    }
}
