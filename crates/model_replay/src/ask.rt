// The file `ask` judged byte by byte.
use super::form;

// What was read of the file so far.
#[derive(Clone, Copy, Debug, PartialEq, Eq)]
enum Form {
    // So many digits of a slot number.
    Slot(u32),
    // Its space, and so many digits of an offering number.
    Number(u32),
    // Byte 10 behind it.
    Whole,
    Neither,
}

// The numbers of a file, or what was read of them so far.
#[derive(Clone, Copy)]
pub struct Ask {
    pub slot: u64,
    pub number: u64,
}

// The form after one byte more.
fn after(form: Form, b: u8) -> Form {
    match (form, b) {
        (Form::Slot(n @ 0..=8), b'0'..=b'9') => Form::Slot(n + 1),
        (Form::Slot(1..=9), b' ') => Form::Number(0),
        (Form::Number(n @ 0..=1), b'0'..=b'9') => Form::Number(n + 1),
        (Form::Number(1..=2), 10) => Form::Whole,
        _ => Form::Neither,
    }
}

fn with_byte(a: Ask, form: Form, b: u8) -> Ask {
    let mut next = a;
    if let Some(d) = form::digit(b) {
        match form {
            Form::Slot(_) => next.slot = form::tenfold(a.slot, d),
            Form::Number(_) => next.number = form::tenfold(a.number, d),
            _ => {}
        }
    }
    next
}

// All bytes of the file, if they are one.
pub fn read(file: &[u8]) -> Option<Ask> {
    let mut form = Form::Slot(0);
    let mut a = Ask { slot: 0, number: 0 };
    for &b in file {
        a = with_byte(a, form, b);
        form = after(form, b);
    }
    (form == Form::Whole).then_some(a)
}
