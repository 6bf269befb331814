// The flat words of a plan's domains, and the rules of a plan held as a value.
ghost use Rattle.std.specs.Prelude.{◌+◌, ◌<◌, ◌≤◌, IfSome};

// A word of a domain: 0 present, 1 Q, 2 R, 3 W, 4 V, 5 its mark; 0 for a domain number outside 1 to 16.
pub fn word(domains: [u32; 96], domain: u32, which: u32) -> u32
    requires { which < 6 }
{
    match domain {
        1..=16 => domains[(6 * (domain - 1) + which) as usize],
        _ => 0,
    }
}

pub fn with_domain(domains: [u32; 96], domain: u32, q: u32, r: u32, w: u32, v: u32) -> [u32; 96] {
    let mut after = domains;
    if let 1..=16 = domain {
        let at = (6 * (domain - 1)) as usize;
        after[at..at + 5].copy_from_slice(&[1, q, r, w, v]);
    }
    after
}

pub fn with_mark(domains: [u32; 96], domain: u32, mark: u32) -> [u32; 96] {
    let mut after = domains;
    if let 1..=16 = domain {
        after[(6 * (domain - 1) + 5) as usize] = mark;
    }
    after
}

// A domain number in the low byte, and its mark above it.
pub fn number_and_mark(domains: [u32; 96], domain: u32) -> u32
    requires { domain ≤ 16 }
{
    if word(domains, domain, 5) == 0 {
        domain
    } else {
        domain + 256
    }
}

// The six words of a domain.
#[derive(Clone, Copy)]
struct Six {
    present: u32,
    q: u32,
    r: u32,
    w: u32,
    v: u32,
    mark: u32,
}

impl Six {
    // Those of the domain at index k.
    fn of(domains: &[u32; 96], k: usize) -> Six
        requires { k < 16 }
    {
        let at = 6 * k;
        Six {
            present: domains[at],
            q: domains[at + 1],
            r: domains[at + 2],
            w: domains[at + 3],
            v: domains[at + 4],
            mark: domains[at + 5],
        }
    }

    // Whether a domain present has Q, R or W above the period, or an absent one any number above zero, or a mark.
    fn is_bad(self, period: u32) -> bool {
        let absent = self.present == 0;
        let most = if absent { 0 } else { period };
        let above = self.q > most || self.r > most || self.w > most;
        above || absent && (self.v > 0 || self.mark > 0)
    }

    fn is_above(self) -> bool {
        self.v > self.w
    }
}

// What the sixteen domains come to: how many are present, the sum of both reservations by plain addition, the lowest domain
// whose numbers are refused, and the lowest whose V is above its W.
#[derive(Clone, Copy)]
pub struct Totals {
    pub present: u32,
    pub reservations: u64,
    pub lowest_bad: Option<u32>,
    pub lowest_above: Option<u32>,
}

pub fn count(period: u32, domains: [u32; 96]) -> Totals
    ensures { result.present ≤ 16 }
{
    let mut present = 0;
    let mut reservations = 0;
    let mut lowest_bad = None;
    let mut lowest_above = None;
    for k in 0..16 {
        let d = Six::of(&domains, k);
        let number = k as u32 + 1;
        present += u32::from(d.present != 0);
        reservations += u64::from(d.q) + u64::from(d.v);
        lowest_bad = lowest_bad.or(d.is_bad(period).then_some(number));
        lowest_above = lowest_above.or(d.is_above().then_some(number));
    }
    Totals {
        present,
        reservations,
        lowest_bad,
        lowest_above,
    }
}

// The domain number that is the given one, counted from 1, of those present in ascending order.
pub fn ranked(domains: [u32; 96], rank: u32) -> Option<u32>
    ensures { IfSome result (λ n. n ≤ 16) }
{
    let mut left = rank;
    for n in 1..17 {
        if word(domains, n, 0) != 0 {
            if left <= 1 {
                return Some(n);
            }
            left -= 1;
        }
    }
    None
}
