// How each kind of run goes: its plans, its length, and how often there are offers, writebacks, yields, faults and plans
// handed in.
use trial_kit::styles;

// Weights are out of 16, that of plans handed in out of 64. Offers of weight 0 are none at all, faults above 16 two at once.
// Edits are how many of the plans handed in are the plan in force, edited.
#[derive(Clone, Copy)]
pub struct Style {
    pub plans: styles::Kind,
    pub runs: u32,
    pub steps: u32,
    pub offers: u32,
    pub writebacks: u32,
    pub yields: u32,
    pub faults: u32,
    pub hands: u32,
    pub edits: u32,
}

// A row of the table below: with names in each of its rows it would be nine times as long.
fn styled(
    plans: styles::Kind,
    runs: u32,
    steps: u32,
    offers: u32,
    writebacks: u32,
    yields: u32,
    faults: u32,
    hands: u32,
    edits: u32,
) -> Style {
    Style {
        plans,
        runs,
        steps,
        offers,
        writebacks,
        yields,
        faults,
        hands,
        edits,
    }
}

// Kinds 0 and 1 are openings, 2 to 14, 21 to 23, 27 and 30 to 32 runs, 15 to 20, 24 to 26, 28 and 29 runs at whose every step a
// changed state is tried too. Those behind have single slots: each turn with each size of a passing set, 24 times.
pub fn of_kind(kind: u32) -> Style {
    match kind {
        0 => styled(styles::Kind::Accepted, 1500, 0, 0, 0, 0, 0, 0, 0),
        1 => styled(styles::Kind::Refused, 3000, 0, 0, 0, 0, 0, 0, 0),
        2 => styled(styles::Kind::One, 200, 60, 8, 5, 3, 1, 4, 0),
        3 => styled(styles::Kind::Small, 300, 120, 8, 4, 1, 1, 2, 0),
        4 => styled(styles::Kind::Most, 3, 9000, 9, 4, 1, 1, 1, 0),
        5 => styled(styles::Kind::None, 60, 100, 9, 4, 1, 1, 2, 0),
        6 => styled(styles::Kind::Sixteen, 150, 120, 7, 4, 1, 1, 2, 0),
        7 => styled(styles::Kind::Unreserved, 60, 100, 9, 5, 2, 1, 2, 0),
        8 => styled(styles::Kind::Whole, 200, 120, 8, 4, 1, 1, 2, 0),
        9 => styled(styles::Kind::Small, 250, 120, 10, 3, 6, 1, 2, 0),
        10 => styled(styles::Kind::Small, 100, 120, 2, 5, 1, 1, 2, 0),
        11 => styled(styles::Kind::Small, 200, 120, 16, 2, 1, 0, 2, 0),
        12 => styled(styles::Kind::Small, 200, 120, 11, 14, 2, 0, 2, 0),
        13 => styled(styles::Kind::Small, 250, 100, 8, 4, 5, 10, 4, 0),
        14 => styled(styles::Kind::Small, 250, 100, 8, 4, 5, 26, 4, 0),
        15 => styled(styles::Kind::Least, 300, 60, 9, 6, 3, 0, 4, 8),
        16 => styled(styles::Kind::Least, 300, 60, 9, 6, 3, 0, 4, 8),
        17 => styled(styles::Kind::Least, 150, 60, 9, 6, 3, 1, 4, 8),
        18 => styled(styles::Kind::Least, 60, 60, 9, 6, 3, 1, 4, 8),
        19 => styled(styles::Kind::Least, 150, 40, 9, 5, 2, 2, 4, 8),
        20 => styled(styles::Kind::Accepted, 150, 60, 9, 6, 3, 0, 4, 8),
        21 => styled(styles::Kind::Most, 1, 4100, 0, 0, 0, 0, 0, 0),
        22 => styled(styles::Kind::Least, 250, 100, 11, 4, 2, 2, 12, 10),
        23 => styled(styles::Kind::One, 100, 60, 11, 4, 2, 2, 16, 6),
        24 => styled(styles::Kind::Least, 100, 40, 9, 5, 3, 3, 4, 8),
        25 => styled(styles::Kind::Least, 100, 40, 9, 5, 3, 3, 4, 8),
        26 => styled(styles::Kind::Least, 200, 60, 9, 8, 3, 0, 2, 8),
        27 => styled(styles::Kind::Older, 150, 100, 11, 12, 2, 1, 2, 0),
        28 => styled(styles::Kind::Least, 300, 60, 9, 4, 3, 0, 2, 8),
        29 => styled(styles::Kind::Least, 100, 40, 9, 4, 3, 0, 2, 8),
        30 => styled(styles::Kind::Marked, 150, 300, 8, 3, 1, 0, 0, 0),
        31 => styled(styles::Kind::Marked, 150, 120, 10, 3, 2, 1, 4, 14),
        32 => styled(styles::Kind::Crowded, 192, 160, 16, 15, 1, 1, 4, 12),
        _ => styled(styles::Kind::None, 7344, 0, 0, 0, 0, 0, 0, 0),
    }
}
