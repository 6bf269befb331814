// The number that a mask of passing numbers grants, and its steps.
ghost use Rattle.std.specs.Prelude.{◌≡◌, cond, ◌<◌, ◌≤◌, eqb};
ghost use Rattle.engine.specs.Inner.{picked_of};

// The number that is granted, or 17, and how many were asked and passed by before it. The regulator has one of its own, whose number
// is an index: a type for both would be a parameter more, and no plainer.
#[derive(Clone, Copy)]
pub struct Picked {
    pub number: u32,
    pub steps: u32,
}

// The numbers from the turn on, or all where none of these passes.
fn first_mask(after: u32, all: u32) -> u32
    ensures { result ≡ cond (eqb after 0) all after }
{
    if after == 0 { all } else { after }
}

// What going round adds to a number.
fn round(after: u32) -> u32
    ensures { result ≡ cond (eqb after 0) 17 0 }
{
    if after == 0 { 17 } else { 0 }
}

// The lowest set bit at or after the turn, or else the lowest of all, or 17; and how far it is from the turn.
pub fn pick(passing: u32, turn: u32) -> Picked
    requires turn_bound { turn ≤ 16 }
    requires passing_bound { passing < 131072 }
    ensures { result ≡ picked_of passing turn }
{
    if passing == 0 {
        return Picked {
            number: 17,
            steps: 17,
        };
    }
    let after = passing >> turn << turn;
    let number = u32::trailing_zeros(first_mask(after, passing));
    Picked {
        number,
        steps: number + round(after) - turn,
    }
}
