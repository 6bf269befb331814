// The numbers of a state, and the way from a state to them and back.
ghost use Rattle.std.specs.Prelude.{◌≡◌, ◌≤◌};
ghost use Rattle.kept.specs.Numbers.{rest_of, tables_of, state_of, Kept};

use super::tables::Tables;
use engine::Masks;
use regulator::State;

// What a slot changes of a state beside its tables, and what is kept of the tables: spoken is the slots decided and both claims
// summed; of the masks, bit n for number n, has is of those with claim, back of those with writeback claim, may of those whose
// reclaimed are not at their cap, room of those whose writebacks are not.
#[derive(Clone, Copy)]
pub struct Numbers {
    pub decided: u16,
    pub closed: u32,
    pub idle: u16,
    pub best: u16,
    pub stock: u16,
    pub turn: u32,
    pub steps: u32,
    pub spoken: u32,
    pub masks: Masks,
}

// The numbers of a state; its tables are lent beside them.
pub fn loaded(s: State) -> Numbers
    requires { s.turn ≤ 16 }
    ensures kept { Kept s.plan.reclaimcap s.plan.writebackcap result (tables_of s) }
    ensures state { state_of (rest_of s) result (tables_of s) ≡ s }
{
    let p = s.plan;
    let claims = table::total(s.claim) + table::total(s.writebackclaim);
    let masks = engine::masks_of(
        s.claim,
        s.writebackclaim,
        s.reclaimed,
        s.writebacks,
        p.reclaimcap,
        p.writebackcap,
    );
    Numbers {
        decided: s.decided,
        closed: s.closed,
        idle: s.idle,
        best: s.best,
        stock: s.stock,
        turn: s.turn as u32,
        steps: s.steps,
        spoken: u32::from(s.decided) + claims,
        masks,
    }
}

// The state that numbers and tables stand for, with all that no slot changes taken from another.
pub fn stored(s: State, f: Numbers, t: Tables) -> State
    ensures { result ≡ state_of (rest_of s) f t }
{
    let Tables {
        claim,
        reserved,
        reclaimed,
        writebacks,
        writebackclaim,
    } = t;
    State {
        decided: f.decided,
        closed: f.closed,
        idle: f.idle,
        best: f.best,
        stock: f.stock,
        turn: f.turn as usize,
        claim,
        reserved,
        reclaimed,
        writebacks,
        steps: f.steps,
        writebackclaim,
        ..s
    }
}
