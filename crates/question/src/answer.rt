// The line that is printed, to a lent buffer as far as it reaches.
ghost use Rattle.std.specs.Prelude.{◌≡◌, nat_abs};
ghost use Rattle.cause.specs.Cause.{totals, loose_and, told_by};
ghost use Rattle.regulator.specs.Refusals.{slot_refusal};
ghost use Rattle.script.specs.Output.{Puts};
ghost use Rattle.question.specs.Answer.{signed, cause_text, told_text, ask_refused_text, slot_text};

use cause::Told;
use regulator::State;
use script::Text;

// The size of a signed number.
fn size(z: i32) -> u64
    ensures { result ≡ nat_abs z }
{
    u64::from(z.unsigned_abs())
}

fn put_signed(text: &mut Text, z: i32)
    ensures { Puts text.old text.new (signed z) }
{
    if z < 0 {
        text.put_field(b'-', size(z));
    } else {
        text.put_number(size(z));
    }
}

// Loose and the lowest domain waiting on claim, each behind a space.
fn put_blocked(text: &mut Text, loose: i32, domain: u64)
    ensures { Puts text.old text.new (cause_text (loose_and loose domain)) }
{
    text.put_byte(b' ');
    put_signed(text, loose);
    text.put_field(b' ', domain);
}

// What all domains yielded and reclaimed.
fn put_totals(text: &mut Text, yielded: u32, reclaimed: u32)
    ensures { Puts text.old text.new (cause_text (totals yielded reclaimed)) }
{
    text.put_field(b' ', u64::from(yielded));
    text.put_field(b' ', u64::from(reclaimed));
}

fn put_cause(text: &mut Text, cause: Told)
    ensures { Puts text.old text.new (cause_text (told_by cause)) }
{
    match cause {
        Told::Nothing => {}
        Told::Claim => text.put_bytes(b" claim"),
        Told::Stock => text.put_bytes(b" stock"),
        Told::Neither => text.put_bytes(b" neither"),
        Told::Granted(number) => text.put_field(b' ', number as u64),
        Told::Cap(cap) => text.put_field(b' ', u64::from(cap)),
        Told::Totals { yielded, reclaimed } => put_totals(text, yielded, reclaimed),
        Told::Blocked { loose, domain } => put_blocked(text, loose, domain as u64),
    }
}

// The verdict and its cause.
fn put_told(text: &mut Text, verdict: u8, cause: Told)
    ensures { Puts text.old text.new (told_text verdict (told_by cause)) }
{
    text.put_number(u64::from(verdict));
    put_cause(text, cause);
    text.put_byte(b'\n');
}

pub(crate) fn put_ask_refused(text: &mut Text, number: u8)
    ensures { Puts text.old text.new (ask_refused_text number) }
{
    text.put_bytes(b"ask refused");
    text.put_field(b' ', u64::from(number));
    text.put_byte(b'\n');
}

// What is told in a slot that is decided.
pub(crate) fn put_slot(text: &mut Text, s: State, offers: &[u8], number: u64)
    requires { slot_refusal s offers.now 17 ≡ 0 }
    ensures { Puts text.old text.new (slot_text (record { given = s; offers = offers.now }) number) }
{
    match cause::explain(s, offers, number) {
        Ok(e) => put_told(text, e.verdict, e.cause),
        Err(fault) => put_ask_refused(text, fault.number()),
    }
}
