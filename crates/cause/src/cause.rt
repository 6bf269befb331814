// What is told of a verdict, from the numbers that it is told of.
ghost use Rattle.std.specs.Prelude.{◌≡◌};
ghost use Rattle.cause.specs.Cause.{word, word_for, told_by};

// Nothing (0); the word claim, stock or neither (1); the number granted (2); the cap (3 and 4); what all domains yielded and reclaimed
// (5); loose and the lowest domain waiting on claim (6).
#[derive(Clone, Copy, Debug, PartialEq, Eq)]
pub enum Told {
    Nothing,
    Claim,
    Stock,
    Neither,
    Granted(usize),
    Cap(u16),
    Totals { yielded: u32, reclaimed: u32 },
    Blocked { loose: i32, domain: usize },
}

// The word of a pass.
pub(crate) fn tell_word(best: bool, claimed: bool, writeback: bool) -> Told
    ensures { told_by result ≡ word (word_for best claimed writeback) }
{
    if best {
        Told::Neither
    } else if claimed {
        Told::Claim
    } else if writeback {
        Told::Neither
    } else {
        Told::Stock
    }
}
