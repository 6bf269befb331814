// What a decided slot does to the state, from the number granted.
ghost use Rattle.std.specs.Prelude.{◌≡◌, true, false, cond, ◌+◌, ◌-◌, ◌<◌, ◌≤◌, ◌≢◌, eqb, ltb, length};
ghost use Rattle.table.specs.Sums.{nth};
ghost use Rattle.regulator.specs.State.{adds_up};
ghost use Rattle.regulator.specs.Turn.{after};
ghost use Rattle.regulator.specs.Grant.{on_claim, on_stock, on_neither, on_writeback, domain_grant, grant, onward};

use super::state::State;
use super::turn;

// (An index below 16 is required as an array asks for it; a type for it would be made and taken apart at each use.)
fn on_claim(mut s: State, j: usize) -> State
    requires j_bound { j < 16 }
    requires j_nonzero { 0 < nth s.claim j }
    requires j_bound_2 { nth s.reserved j < 65535 }
    ensures { result ≡ on_claim s j }
{
    s.claim[j] -= 1;
    s.reserved[j] += 1;
    s
}

fn on_stock(mut s: State, j: usize) -> State
    requires j_bound { j < 16 }
    requires stock_nonzero { 0 < s.stock }
    requires j_bound_2 { nth s.reclaimed j < 65535 }
    ensures { result ≡ on_stock s j }
{
    s.stock -= 1;
    s.reclaimed[j] += 1;
    s
}

// A writeback, on writeback claim or on neither.
fn on_writeback(mut s: State, j: usize) -> State
    requires j_bound { j < 16 }
    requires j_bound_2 { nth s.writebacks j < 65535 }
    ensures { result ≡ on_writeback s j (ltb 0 (nth s.writebackclaim j)) }
{
    s.writebacks[j] += 1;
    if 0 < s.writebackclaim[j] {
        s.writebackclaim[j] -= 1;
    }
    s
}

// A slot that takes neither claim nor stock: best effort's, or an idle one.
fn on_neither(s: State, idle: u16, best: u16) -> State
    ensures { result ≡ on_neither s idle best }
{
    State { idle, best, ..s }
}

// The grant of the domain at index j, which the definition too takes by the kind. (That the state adds up is required, as in calls.rt.)
fn grant_domain(s: State, j: usize, writeback: bool) -> State
    requires j_bound { j < 16 }
    requires s_value { adds_up s ≡ true }
    requires stock_nonzero { writeback ≡ false → nth s.claim j ≡ 0 → 0 < s.stock }
    ensures { result ≡ domain_grant s j writeback }
{
    if writeback {
        return on_writeback(s, j);
    }
    if 0 < s.claim[j] {
        on_claim(s, j)
    } else {
        on_stock(s, j)
    }
}

// The grant of number n, or the idle slot at 17.
pub(crate) fn grant_number(s: State, offers: &[u8], n: usize) -> State
    requires n_bound { n ≤ 17 }
    requires offers_len { length offers.now ≡ 17 }
    requires s_value { adds_up s ≡ true }
    requires stock_nonzero { 0 < n → n < 17 → nth offers.now n ≢ 2 → nth s.claim (n - 1) ≡ 0 → 0 < s.stock }
    ensures { result ≡ grant s offers.now n }
{
    if n == 17 {
        return on_neither(s, s.idle + 1, s.best);
    }
    if n == 0 {
        return on_neither(s, s.idle, s.best + 1);
    }
    grant_domain(s, n - 1, offers[n] == 2)
}

// The turn after number n was granted, or after the idle slot at 17.
fn turn_after(turn: usize, n: usize) -> usize
    requires { n ≤ 17 }
    ensures { result ≡ cond (eqb n 17) turn (after n) }
{
    if n == 17 { turn } else { turn::next_number(n) }
}

// The slot is decided.
pub(crate) fn go_on(s: State, n: usize, steps: u32) -> State
    requires n_bound { n ≤ 17 }
    requires decided_bound { s.decided < 65535 }
    requires steps_bound { s.steps + steps < 4294967296 }
    ensures { result ≡ onward s n steps }
{
    State {
        decided: s.decided + 1,
        turn: turn_after(s.turn, n),
        steps: s.steps + steps,
        ..s
    }
}
