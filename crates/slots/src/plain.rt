// Whether a slot line is plain, so that it needs no look at refusals or at the period's end.
ghost use Rattle.std.specs.Prelude.{◌≡◌, true, false, ℕ, ◌+◌, ◌≤◌, length, get_or};
ghost use Rattle.std.specs.Option.{IfSome};
ghost use Rattle.engine.specs.Inner.{Marks};
ghost use Rattle.slots.specs.Lines.{Head};
ghost use Rattle.slots.specs.Inner.{Allowed, Plain, PlainLine};

use digits::Masks;
use kept::Numbers;
use plan::Plan;

// The bytes of a slot line.
pub(crate) const LINE: usize = 20;

// Do the letter, the space and the byte 10 of a slot line stand there?
fn is_head(part: &[u8], at: usize) -> bool
    requires { at + 20 ≤ length part.now }
    ensures { result ≡ true → Head part.now at }
{
    part[at] == b's' && part[at + 1] == b' ' && part[at + 19] == b'\n'
}

// Is every offer planned, the slot not the last of its period, and the period not the last of all?
fn is_plain(f: Numbers, period: u32, allowed: u32, offers: Masks) -> bool
    ensures { result ≡ true → Plain f period allowed offers.access offers.writeback }
{
    let unplanned = bits::less(bits::join(offers.access, offers.writeback), allowed);
    unplanned == 0 && f.closed != u32::MAX && u32::from(f.decided) + 1 != period
}

// The offers of the slot line that starts at a place, where it is a plain one.
pub(crate) fn offers(part: &[u8], at: usize, f: Numbers, period: u32, allowed: u32) -> Option<Masks>
    requires { at ≤ length part.now }
    ensures { IfSome result (λ m. PlainLine part.now at f period allowed m.access m.writeback) }
{
    if part.len() - at < LINE || !is_head(part, at) {
        return None;
    }
    let masks = digits::offers(part, at + 2)?;
    if is_plain(f, period, allowed, masks) {
        Some(masks)
    } else {
        None
    }
}

// The planned domains as a mask.
fn planned_mask(planned: [bool; 16]) -> u32
    ensures { Marks result (λ (k : ℕ). get_or planned k false) }
{
    let mut m = 0;
    for i in 0..16 {
        m = engine::with_bit(m, i as u32 + 1, planned[i]);
    }
    m
}

// Best effort and the planned domains as a mask.
pub(crate) fn allowed_of(p: Plan) -> u32
    ensures { Allowed p result }
{
    engine::with_bit(planned_mask(p.planned), 0, true)
}
