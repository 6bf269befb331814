// One line carried out: read, matched on, and answered by the regulator.
ghost use Rattle.std.specs.Prelude.{◌≡◌, true};
ghost use Rattle.regulator.specs.State.{adds_up};
ghost use Rattle.script.specs.Line.{slot_line, yield_line, meaning_of};
ghost use Rattle.script.specs.Replay.{carried_out};
ghost use Rattle.script.specs.Output.{Output, shown};
ghost use Rattle.script.specs.Inner.{line_number, Stepped};
ghost use Rattle.script.specs.declared.carrying.LineFault.TheVariants.{Slot, Yield};

use super::line::{Line, read_line};
use super::output::Text;
use super::text;
use regulator::{SlotFault, State, YieldFault};

// What a line is refused for: it is of neither form, or the call that it asks for is refused.
#[derive(Clone, Copy, Debug, PartialEq, Eq)]
pub(crate) enum LineFault {
    Form,
    Slot(SlotFault),
    Yield(YieldFault),
}

impl LineFault {
    pub(crate) fn number(self) -> u8
        ensures { result ≡ line_number self }
    {
        match self {
            LineFault::Form => 41,
            LineFault::Slot(e) => e.number(),
            LineFault::Yield(e) => e.number(),
        }
    }
}

impl From<SlotFault> for LineFault {
    ghost from_gives = { λ e f. f ≡ Slot e };

    fn from(e: SlotFault) -> LineFault {
        LineFault::Slot(e)
    }
}

impl From<YieldFault> for LineFault {
    ghost from_gives = { λ e f. f ≡ Yield e };

    fn from(e: YieldFault) -> LineFault {
        LineFault::Yield(e)
    }
}

// (That the state adds up is required, as `engine::run_slot` and `regulator::run_yield` require it.)
fn slot_step(s: State, offers: &[u8; 17], text: &mut Text) -> Result<State, LineFault>
    requires { adds_up s ≡ true }
    ensures same { text.new.out.ghost_name ≡ text.old.out.ghost_name }
    ensures stepped { Stepped (carried_out s (slot_line offers.now)) s result (shown text.old) (shown text.new) }
{
    let slot = engine::run_slot(s, offers)?;
    if let Some(counts) = slot.counts {
        text::put_period(text, s.plan, slot.state.closed, counts);
    }
    Ok(slot.state)
}

fn yield_step(s: State, domain: u64, k: u64) -> Result<State, LineFault>
    requires { adds_up s ≡ true }
    ensures { (o : Output) → Stepped (carried_out s (yield_line domain k)) s result o o }
{
    Ok(regulator::run_yield(s, domain, k)?)
}

// Carries out one line, without its byte 10.
pub(crate) fn carry_out(s: State, line: &[u8], text: &mut Text) -> Result<State, LineFault>
    requires { adds_up s ≡ true }
    ensures same { text.new.out.ghost_name ≡ text.old.out.ghost_name }
    ensures stepped { Stepped (carried_out s (meaning_of line.now)) s result (shown text.old) (shown text.new) }
{
    let mut offers = [0u8; 17];
    match read_line(line, &mut offers) {
        Line::Slot => slot_step(s, &offers, text),
        Line::Yield { domain, count } => yield_step(s, domain, count),
        Line::Bad(_) => Err(LineFault::Form),
    }
}
