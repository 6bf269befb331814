// The lines that the replay prints.
ghost use Rattle.std.specs.Prelude.{◌+◌, ◌<◌};
ghost use Rattle.table.specs.Sums.{nth};
ghost use Rattle.script.specs.Text.{header, domain_text, domains_text, steps_text, period_text, open_text, refused_text, plan_refused_text, line_refused_text};
ghost use Rattle.script.specs.Output.{Puts};

use super::output::Text;
use plan::Plan;
use regulator::Counts;

pub(crate) fn put_header(text: &mut Text)
    ensures { Puts text.old text.new header }
{
    text.put_bytes(b"period idle best domains\n");
}

// The counts of the domain with index j.
fn put_domain(text: &mut Text, j: usize, c: Counts)
    requires { j < 16 }
    ensures { Puts text.old text.new (domain_text (j + 1) (nth c.reserved j) (nth c.reclaimed j) (nth c.yielded j) (nth c.writebacks j)) }
{
    text.put_field(b' ', j as u64 + 1);
    text.put_field(b':', u64::from(c.reserved[j]));
    text.put_field(b'+', u64::from(c.reclaimed[j]));
    text.put_field(b'-', u64::from(c.yielded[j]));
    text.put_field(b'w', u64::from(c.writebacks[j]));
}

// The counts of each planned domain.
fn put_domains(text: &mut Text, p: Plan, c: Counts)
    ensures { Puts text.old text.new (domains_text p c 16) }
{
    for j in 0..16 {
        if p.planned[j] {
            put_domain(text, j, c);
        }
    }
}

// The sum of steps, which ends the line of a period.
fn put_steps(text: &mut Text, steps: u32)
    ensures { Puts text.old text.new (steps_text steps) }
{
    text.put_bytes(b" s");
    text.put_number(u64::from(steps));
    text.put_byte(b'\n');
}

pub(crate) fn put_period(text: &mut Text, p: Plan, number: u32, c: Counts)
    ensures { Puts text.old text.new (period_text p number c) }
{
    text.put_number(u64::from(number));
    text.put_field(b' ', u64::from(c.idle));
    text.put_field(b' ', u64::from(c.best));
    put_domains(text, p, c);
    put_steps(text, c.steps);
}

pub(crate) fn put_open(text: &mut Text, decided: u16)
    ensures { Puts text.old text.new (open_text decided) }
{
    text.put_bytes(b"open");
    text.put_field(b' ', u64::from(decided));
    text.put_byte(b'\n');
}

// A line of two numbers, each behind its words.
fn put_refused(text: &mut Text, words: &[u8], n: u64, more: &[u8], m: u64)
    ensures { Puts text.old text.new (refused_text words.now n more.now m) }
{
    text.put_bytes(words);
    text.put_field(b' ', n);
    text.put_bytes(more);
    text.put_field(b' ', m);
    text.put_byte(b'\n');
}

pub fn put_plan_refused(text: &mut Text, number: u8, place: u16)
    ensures { Puts text.old text.new (plan_refused_text number place) }
{
    put_refused(
        text,
        b"plan refused",
        u64::from(number),
        b" at",
        u64::from(place),
    );
}

pub(crate) fn put_line_refused(text: &mut Text, line: u64, number: u8)
    ensures { Puts text.old text.new (line_refused_text line number) }
{
    put_refused(text, b"line", line, b" refused", u64::from(number));
}
