// The library and the model on one question.
use super::compare::{Outcome, Replay};
use super::{compare, pieces};
use model_calls::Cause;

// The model's cause, and whether the library does all as the model does.
#[derive(Clone, Copy)]
pub struct Reply {
    pub cause: Cause,
    pub same: bool,
}

// The bytes of the buffers that answers are written to.
const BUFFER: usize = 64;

// A question on a replay.
#[derive(Clone, Copy)]
pub struct Question<'a> {
    pub ask: &'a [u8],
    pub of: Replay<'a>,
}

impl Question<'_> {
    // Whether the library, of the script whole and in parts, writes a text of so many bytes into buffers filled as that of the
    // text.
    fn agrees(self, text: &[u8; BUFFER], bytes: usize) -> bool {
        let r = self.of;
        let lent = r.lent.min(BUFFER);
        let mut whole = [r.filled; BUFFER];
        let mut parted = [r.filled; BUFFER];
        let one = question::why(r.file, self.ask, r.script, &mut whole[..lent]);
        let two = pieces::asked(r.file, self.ask, r.script, &mut parted[..lent], r.parts);
        one == bytes && whole == *text && two == bytes && parted == *text
    }

    // The whole output, into equal buffers of which the first bytes are lent.
    pub fn reply(self) -> Reply {
        let r = self.of;
        let lent = r.lent.min(BUFFER);
        let mut text = [r.filled; BUFFER];
        let a = model_replay::why(r.file, self.ask, r.script, &mut text[..lent]);
        Reply {
            cause: a.cause,
            same: self.agrees(&text, a.bytes),
        }
    }

    // The whole output of both, compared with a text that is stated.
    pub fn outcome_as(self, due: &[u8]) -> Outcome {
        let mut text = [self.of.filled; BUFFER];
        let bytes = compare::put_due(&mut text, due);
        let a = self.reply();
        Outcome {
            number: a.cause.number,
            periods: 0,
            same: a.same && self.agrees(&text, bytes),
        }
    }
}
