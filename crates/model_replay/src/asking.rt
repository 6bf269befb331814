// A question answered: the script is carried out byte by byte up to the slot that is asked for, and one line is printed.
use super::ask::Ask;
use super::run::At;
use super::text::Text;
use super::{ask, form, run};
use model_calls::Cause;

// The bytes of the text in the buffer, and the cause; its number is the refusal of the file `ask`, of the plan or of the
// question.
#[derive(Clone, Copy)]
pub struct Answered {
    pub bytes: usize,
    pub cause: Cause,
}

// Whether a byte ends a slot line, and none was refused before.
fn ends_slot(a: At, b: u8) -> bool {
    let l = a.line;
    a.refused.is_none() && b == 10 && l.form == form::SLOT
}

// The cause in the slot asked for. What the lines before it print is lost: there is one byte for it.
fn found(s: &mut [u64], script: &[u8], asked: Ask) -> Cause {
    let mut offers = [0u8; 17];
    let mut lost = [0u8; 1];
    let mut left = asked.slot;
    let mut out = Text::from(&mut lost, 0);
    let mut a = run::first_line();
    for &b in script {
        if ends_slot(a, b) {
            if left == 1 {
                return model_calls::explain(s, &offers, asked.number);
            }
            left = left.wrapping_sub(1);
        }
        a = run::with_byte(a, b, s, &mut offers, &mut out);
    }
    model_calls::figures(61, 0, 0, 0)
}

// A slot that is refused is not decided.
fn as_asked(c: Cause) -> Cause {
    match c.number {
        0 | 62 => c,
        _ => model_calls::figures(61, 0, 0, 0),
    }
}

fn put_word(out: &mut Text<'_>, word: u8) {
    match word {
        model_calls::CLAIM => out.text(b" claim"),
        model_calls::STOCK => out.text(b" stock"),
        _ => out.text(b" neither"),
    }
}

// What a line tells behind the verdict.
fn put_fields(out: &mut Text<'_>, c: Cause) {
    match c.verdict {
        0 => {}
        1 => put_word(out, c.word),
        2..=4 => out.field(b" ", c.first),
        _ => {
            if c.below {
                out.text(b" -");
            } else {
                out.text(b" ");
            }
            out.number(c.first);
            out.field(b" ", c.second);
        }
    }
}

// The line of a question whose plan is not refused: the refusal of the question, or the verdict and its cause.
fn told(mut out: Text<'_>, cause: Cause) -> Answered {
    if cause.number != 0 {
        out.field(b"ask refused ", u64::from(cause.number));
    } else {
        out.number(u64::from(cause.verdict));
        put_fields(&mut out, cause);
    }
    out.byte(10);
    Answered {
        bytes: out.end(),
        cause,
    }
}

// The whole output for a plan file, a file `ask` and a script.
pub fn why(file: &[u8], given: &[u8], script: &[u8], out: &mut [u8]) -> Answered {
    let mut out = Text::from(out, 0);
    let Some(asked) = ask::read(given) else {
        return told(out, model_calls::figures(63, 0, 0, 0));
    };
    let a = model_plans::read(file);
    if a.number != 0 {
        run::put_refused_plan(&mut out, a.number, a.place);
        return Answered {
            bytes: out.end(),
            cause: model_calls::figures(a.number, 0, 0, 0),
        };
    }
    let domains = a.domains;
    let mut s = [0u64; 476];
    model_calls::open(a.period, domains, &mut s);
    told(out, as_asked(found(&mut s, script, asked)))
}
