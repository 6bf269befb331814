// Yield by forecast: the estimate of a domain, its need, what is yielded at a period's start, the estimates after a close, and
// whether they add up.
ghost use Rattle.std.specs.Prelude.{◌≡◌, cond, ◌||◌, ℕ, ◌+◌, ◌-◌};
ghost use Rattle.table.specs.Sums.{nth};
ghost use Rattle.table.specs.Ranges.{values_below, every_below, lowest};
ghost use Rattle.regulator.specs.Forecast.{no_estimates, is_unknown, moved, next_estimate, at_or_above, need_of, start_claims, closed_with};
ghost use Rattle.regulator.specs.State.{estimate_adds_up};
ghost use Rattle.regulator.specs.declared.forecast.Estimate.TheVariants.{Unknown};

// The estimate of a domain: none, or a float. An enum and no Option: a form of docs/DECISIONS.md that may not change.
#[derive(Clone, Copy, Debug, PartialEq)]
pub enum Estimate {
    Unknown,
    Known(f64),
}

// What is kept of a domain from period to period.
#[derive(Clone, Copy, Debug, PartialEq)]
pub struct Tracked {
    pub estimate: Estimate,
}

// No domain has an estimate.
pub(crate) fn no_estimates() -> [Tracked; 16]
    ensures { result ≡ no_estimates }
{
    let none = Tracked {
        estimate: Estimate::Unknown,
    };
    [none; 16]
}

// An estimate z after c access passes: three operations, each rounded once.
fn moved_by(z: f64, c: u32) -> f64
    ensures { result ≡ moved z c }
{
    z + (f64::from(c) - z) * 0.25
}

// The estimate after a period of c access passes.
fn next_estimate(e: Estimate, c: u32) -> Estimate
    ensures { result ≡ next_estimate e c }
{
    match e {
        Estimate::Unknown => Estimate::Known(f64::from(c)),
        Estimate::Known(z) => Estimate::Known(moved_by(z, c)),
    }
}

// The lowest number below q that is at or above z, or q where there is none.
fn lowest_above(z: f64, q: u16) -> u16
    ensures { result ≡ lowest (at_or_above z) q }
{
    (0..q).find(|&n| f64::from(n) >= z).unwrap_or(q)
}

// The need of a domain with reservation q.
fn need(t: Tracked, q: u16) -> u16
    ensures { result ≡ need_of t.estimate q }
{
    match t.estimate {
        Estimate::Unknown => q,
        Estimate::Known(z) => lowest_above(z, q),
    }
}

// The claims that a period starts with: the needs.
pub(crate) fn start_claims(q: [u16; 16], tracked: [Tracked; 16]) -> [u16; 16]
    ensures { result ≡ start_claims q tracked }
{
    let mut claims = [0; 16];
    for k in 0..16 {
        claims[k] = need(tracked[k], q[k]);
    }
    claims
}

// What the claims leave of the reservations.
pub(crate) fn left_over(q: [u16; 16], claims: [u16; 16]) -> [u16; 16]
    ensures { result ≡ values_below (λ (j : ℕ). nth q j - nth claims j) 16 }
{
    let mut yields = [0; 16];
    for k in 0..16 {
        yields[k] = q[k].saturating_sub(claims[k]);
    }
    yields
}

// The access passes of a period.
fn access_passes(reserved: u16, reclaimed: u16) -> u32
    ensures { result ≡ reserved + reclaimed }
{
    u32::from(reserved) + u32::from(reclaimed)
}

// What is kept of a domain after a period of c access passes: an estimate only if it is marked.
fn after_close(t: Tracked, marked: bool, c: u32) -> Tracked
    ensures { result ≡ record { estimate = cond marked (next_estimate t.estimate c) Unknown } }
{
    let estimate = if marked {
        next_estimate(t.estimate, c)
    } else {
        Estimate::Unknown
    };
    Tracked { estimate }
}

// The estimates after a period closed.
pub(crate) fn close_all(
    marked: [bool; 16],
    tracked: [Tracked; 16],
    reserved: [u16; 16],
    reclaimed: [u16; 16],
) -> [Tracked; 16]
    ensures { result ≡ closed_with marked tracked reserved reclaimed }
{
    let mut next = tracked;
    for k in 0..16 {
        let c = access_passes(reserved[k], reclaimed[k]);
        let t = after_close(tracked[k], marked[k], c);
        next[k] = t;
    }
    next
}

// Does the estimate of one domain add up: is it marked, or has none?
fn estimate_adds_up(t: Tracked, marked: bool) -> bool
    ensures { result ≡ (marked || is_unknown t.estimate) }
{
    marked || matches!(t.estimate, Estimate::Unknown)
}

pub(crate) fn estimates_add_up(marked: [bool; 16], tracked: [Tracked; 16]) -> bool
    ensures { result ≡ every_below (estimate_adds_up marked tracked) 16 }
{
    (0..16).all(|j| estimate_adds_up(tracked[j], marked[j]))
}
