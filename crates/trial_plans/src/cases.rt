// The cases that are fixed by seeds, and how many there are of each kind.
use trial_kit::draw;

// A case of a kind, and its seed. Kinds are numbers: they are counted through, and say in which row of the printed lines the
// case is counted. Kind 0 are the stated cases; the kinds 16 to 22, 27 and 29 are of plan values, all others of files.
#[derive(Clone, Copy)]
pub struct Case {
    pub kind: u32,
    pub number: u32,
    pub seed: u32,
}

pub const KINDS: u32 = 41;

pub fn case_of(kind: u32, number: u32) -> Case {
    Case {
        kind,
        number,
        seed: draw::draw(kind, number),
    }
}

// How many cases each kind has.
pub fn count(kind: u32) -> u32 {
    match kind {
        1 => 1041,
        2 | 3 => 600,
        4 | 30 => 4000,
        5 | 31 => 2400,
        6..=9 | 32 | 33 => 1500,
        10..=15 | 38..=40 => 2500,
        18 | 20 => 1200,
        16..=19 | 34 => 1800,
        23 | 24 => 3808,
        25 | 36 => 1700,
        26..=29 | 37 => 2000,
        35 => 2200,
        _ => 1400,
    }
}
