// The rule of the turn in the words of documents 01 and 02, held against what was told of a slot in which a known set of numbers
// passes; and which sizes of such sets, and which steps, were seen with each turn.

// Of each turn, which sizes of passing sets were seen with it, and which steps.
#[derive(Clone, Copy)]
pub struct Turns {
    sizes: [[bool; 18]; 17],
    steps: [[bool; 18]; 17],
}

// The lowest number of a set at or after one.
fn lowest(set: [bool; 17], from: usize) -> Option<usize> {
    (from..17).find(|&n| set[n])
}

// Who is to be granted: the lowest at or after the turn, or else the lowest of all; nobody in an idle slot.
fn granted(set: [bool; 17], turn: usize) -> Option<usize> {
    lowest(set, turn).or(lowest(set, 0))
}

// How many are asked and passed by, from the turn on, where 0 comes after 16.
fn passed_by(set: [bool; 17], turn: usize) -> u32 {
    let first = (0..17u32).find(|&steps| set[(turn % 17 + steps as usize) % 17]);
    first.unwrap_or(17)
}

// The turn is the number after the granted one, after 16 it is 0; where nobody is granted it stays.
fn next_turn(chosen: Option<usize>, turn: usize) -> usize {
    match chosen {
        None => turn,
        Some(16) => 0,
        Some(n) => n.wrapping_add(1),
    }
}

// Whether a verdict is 1 of the number granted, 2 of another that passes, and neither of one that does not.
fn is_fit(verdict: u8, passes: bool, chosen: bool) -> bool {
    match verdict {
        1 => passes && chosen,
        2 => passes && !chosen,
        _ => !passes,
    }
}

fn are_fit(verdicts: [u8; 18], set: [bool; 17], chosen: Option<usize>) -> bool {
    (0..17).all(|n| is_fit(verdicts[n], set[n], chosen == Some(n)))
}

// Whether the verdicts and steps told, and the turn after them, are as the rule says of a set and a turn.
pub fn hold(set: [bool; 17], turn: usize, verdicts: [u8; 18], steps: u32, after: u64) -> bool {
    let chosen = granted(set, turn);
    steps == passed_by(set, turn)
        && after == next_turn(chosen, turn) as u64
        && are_fit(verdicts, set, chosen)
}

// How many numbers pass by the verdicts told.
fn size(verdicts: [u8; 18]) -> usize {
    verdicts[..17]
        .iter()
        .filter(|&&verdict| matches!(verdict, 1 | 2))
        .count()
}

// How many pairs of a turn and a number were seen.
fn pairs(seen: &[[bool; 18]; 17]) -> usize {
    seen.iter().flatten().filter(|&&seen| seen).count()
}

impl Turns {
    pub fn new() -> Turns {
        Turns {
            sizes: [[false; 18]; 17],
            steps: [[false; 18]; 17],
        }
    }

    // Notes the verdicts and steps told of a slot with a turn.
    pub fn note(&mut self, turn: usize, verdicts: [u8; 18], steps: u32) {
        self.sizes[turn % 17][size(verdicts) % 18] = true;
        self.steps[turn % 17][steps as usize % 18] = true;
    }

    // How many pairs of a turn and a size were seen.
    pub fn sizes(&self) -> usize {
        pairs(&self.sizes)
    }

    // How many pairs of a turn and steps were seen.
    pub fn steps(&self) -> usize {
        pairs(&self.steps)
    }
}
