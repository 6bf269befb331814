// The cause of a verdict, asked of the library and of the model for the same state, offers and number; and what it was.
use cause::Told;
use model_calls::Cause;
use trial_states::calls::Call;
use trial_states::forms;

// The model's answer, and whether the library's is the same.
#[derive(Clone, Copy)]
pub struct Asked {
    pub cause: Cause,
    pub same: bool,
}

// The first figure of the model, which may be below zero, as the library has it.
fn signed(m: Cause) -> i32 {
    let size = (m.first % 1048576) as i32;
    if m.below { -size } else { size }
}

// Whether the library tells the model's cause.
fn is_cause(t: Told, m: Cause) -> bool {
    match t {
        Told::Nothing => m.verdict == 0,
        Told::Claim => m.word == model_calls::CLAIM,
        Told::Stock => m.word == model_calls::STOCK,
        Told::Neither => m.word == model_calls::NEITHER,
        Told::Granted(number) => m.verdict == 2 && number as u64 == m.first,
        Told::Cap(cap) => matches!(m.verdict, 3 | 4) && u64::from(cap) == m.first,
        Told::Totals { yielded, reclaimed } => {
            m.verdict == 5 && u64::from(yielded) == m.first && u64::from(reclaimed) == m.second
        }
        Told::Blocked { loose, domain } => {
            m.verdict == 6 && loose == signed(m) && domain as u64 == m.second
        }
    }
}

// Asks for the verdict of the number that a slot call names, on a state of these words and the call's offers.
pub fn answered(now: &[u64], c: Call) -> Asked {
    let mut words = [0u64; 476];
    forms::copy(&mut words, now);
    let offers = &c.offers[..c.offered.min(18)];
    let cause = model_calls::explain(&mut words, offers, c.domain);
    let same = match cause::explain(forms::state_of(now), offers, c.domain) {
        Ok(e) => cause.number == 0 && e.verdict == cause.verdict && is_cause(e.cause, cause),
        Err(e) => u32::from(e.number()) == cause.number && cause.verdict == 0,
    };
    Asked { cause, same }
}
