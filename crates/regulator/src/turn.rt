// The turn: the number that is granted, the steps to it, and its verdict.
ghost use Rattle.std.specs.Prelude.{◌≡◌, ◌≤◌, eqb, length, set};
ghost use Rattle.table.specs.Sums.{nth};
ghost use Rattle.regulator.specs.Turn.{after, ask, distance};

// The number after n: round from 16 to 0.
pub(crate) fn next_number(n: usize) -> usize
    requires { n ≤ 16 }
    ensures { (result ≡ after n) × (result ≤ 16) }
{
    if n == 16 { 0 } else { n + 1 }
}

// The number that is granted, or 17, and how many were asked and passed by before it.
#[derive(Clone, Copy)]
pub(crate) struct Picked {
    pub number: usize,
    pub steps: u32,
}

// A loop that yields the number by break, or 17: a form of docs/DECISIONS.md that may not change.
// The first number from the turn on whose ruling is 2, or 17; and how far it is from the turn.
pub(crate) fn pick(rulings: &[u8], turn: usize) -> Picked
    requires rulings_len { length rulings.now ≡ 17 }
    requires turn_bound { turn ≤ 16 }
    ensures number { result.number ≡ ask (λ n. eqb (nth rulings.now n) 2) turn 17 }
    ensures steps { result.steps ≡ distance turn result.number }
{
    let mut n = turn;
    let mut left: u32 = 17;
    loop {
        if left == 0 {
            break Picked {
                number: 17,
                steps: 17,
            };
        }
        if rulings[n] == 2 {
            break Picked {
                number: n,
                steps: 17 - left,
            };
        }
        n = next_number(n);
        left -= 1;
    }
}

// The granted number's verdict; 17 has none.
pub fn mark(verdicts: &mut [u8], granted: usize)
    requires { length verdicts.old ≡ 17 }
    ensures { verdicts.new ≡ set verdicts.old granted 1 }
{
    if granted < 17 {
        verdicts[granted] = 1;
    }
}
