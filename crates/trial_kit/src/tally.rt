// What was compared, what was told, and what differed.

// The refusal that the model tells, and whether the library does all as the model does.
#[derive(Clone, Copy)]
pub struct Verdict {
    pub number: u32,
    pub same: bool,
}

// A case by its kind and its number there.
#[derive(Clone, Copy)]
pub struct First {
    pub kind: u32,
    pub case: u32,
}

// The counts of the kind at hand, where leftovers are those refused with 12, those of all kinds, how often each refusal was
// told, and the first case that differed.
#[derive(Clone, Copy)]
pub struct Tally {
    pub compared: u32,
    pub accepted: u32,
    pub refused: u32,
    pub leftovers: u32,
    pub differ: u32,
    pub allcompared: u32,
    pub alldiffer: u32,
    pub told: [u32; 64],
    pub first: Option<First>,
}

pub fn start() -> Tally {
    Tally {
        compared: 0,
        accepted: 0,
        refused: 0,
        leftovers: 0,
        differ: 0,
        allcompared: 0,
        alldiffer: 0,
        told: [0; 64],
        first: None,
    }
}

// The tally for the next kind.
pub fn next_kind(t: Tally) -> Tally {
    let mut after = t;
    after.compared = 0;
    after.accepted = 0;
    after.refused = 0;
    after.leftovers = 0;
    after.differ = 0;
    after
}

pub fn more(x: u32) -> u32 {
    if x < 1000000000 { x + 1 } else { x }
}

fn with_told(t: Tally, number: u32) -> Tally {
    let mut after = t;
    let k = (number % 64) as usize;
    after.told[k] = more(after.told[k]);
    if number == 0 {
        after.accepted = more(after.accepted);
    } else {
        after.refused = more(after.refused);
    }
    if number == 12 {
        after.leftovers = more(after.leftovers);
    }
    after
}

fn with_difference(t: Tally, kind: u32, case: u32) -> Tally {
    let mut after = t;
    if after.first.is_none() {
        after.first = Some(First { kind, case });
    }
    after.differ = more(after.differ);
    after.alldiffer = more(after.alldiffer);
    after
}

// A difference of something that is no case of its own.
pub fn noted(t: Tally, kind: u32, case: u32, same: bool) -> Tally {
    if same {
        t
    } else {
        with_difference(t, kind, case)
    }
}

pub fn counted(t: Tally, kind: u32, case: u32, v: Verdict) -> Tally {
    let mut after = with_told(t, v.number);
    after.compared = more(after.compared);
    after.allcompared = more(after.allcompared);
    if v.same {
        after
    } else {
        with_difference(after, kind, case)
    }
}
