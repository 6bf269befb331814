// The cases of each kind: how many there are, what their plans are like, and how many lines of their scripts are taken first.
use super::lines::Weights;
use plan::Plan;
use trial_kit::{draw, styles, values};

// The kinds 0 to 3 have damaged or drawn plan files, 4 to 11 and 28 scripts that are taken, 12 to 20 a line put among others in
// one of nine ways, 21 to 25 damaged or drawn scripts, 26 short buffers, 27 lines read by themselves, and 29 and 30 plan files
// with leftovers. From 31 on there are rows of slot lines: with a byte of one put to each value (31), with another line among
// them (32), with P 1, 2 and 3 (33) and 4,096 (34), under plans whose claims and caps are used up (35), in parts that end at one
// place of each line (36), and with short buffers (37). Each case up to here but those of 27 has a question too; from 38 on there
// are questions alone: with a file `ask` edited in one of three ways (38 to 40), damaged otherwise (41), with short buffers (42),
// and on scripts with yields under plans of few domains (43).
pub const KINDS: u32 = 44;

pub const QUESTIONS: u32 = 38;

pub const ROWS: u32 = 31;

pub const PLACES: u32 = 36;

pub const LINES: u32 = 27;

// The bytes of the buffers that texts are written to.
pub const BUFFER: usize = 16384;

// A case and the number drawn for it; the run of cases that share a plan and its first lines, the number drawn for these, and
// the plan's style. A kind is a number and no enum: seeds are drawn from it, and names are lines.
#[derive(Clone, Copy)]
pub struct Case {
    pub kind: u32,
    pub case: u32,
    pub seed: u32,
    pub run: u32,
    pub shared: u32,
    pub style: styles::Kind,
}

// How many cases each kind has.
pub fn runs(kind: u32) -> u32 {
    match kind {
        0 => 1041,
        1 => 2720,
        2 | 30 => 1500,
        6 => 4,
        7 => 30,
        4..=11 => 200,
        12 | 15 => 400,
        13 | 14 => 5120,
        16 | 17 => 2560,
        18 | 19 => 1200,
        20 => 40,
        3 | 24 => 600,
        26 => 4200,
        27 => 12000,
        28 => 300,
        29 => 1600,
        31 => 5120,
        32 => 320,
        33 => 90,
        34 => 2,
        35 => 100,
        36 => 200,
        37 => 700,
        38 => 520,
        39 | 40 => 3328,
        42 => 1500,
        43 => 1600,
        _ => 2000,
    }
}

fn run_of(kind: u32, case: u32) -> u32 {
    match kind {
        1 => case / 272,
        23 => case / 400,
        26 => case / 700,
        43 => case / 4 % 4096 * 16 + case % 4,
        _ => case,
    }
}

// Sixteen domains where there are yields to edit.
fn style_of(kind: u32, run: u32) -> styles::Kind {
    match kind {
        0 | 5 | 11 | 32 => styles::Kind::Small,
        2 | 3 | 7 | 30 => styles::Kind::None,
        4 => styles::Kind::One,
        28 => styles::Kind::Marked,
        43 => match run / 16 % 4 {
            0 => styles::Kind::Tight,
            1 => styles::Kind::Crowded,
            _ => styles::Kind::Marked,
        },
        6 | 34 => styles::Kind::Most,
        31 | 33 | 37 => styles::Kind::Short,
        35 | 38..=42 => if run % 2 == 0 {
            styles::Kind::Tight
        } else {
            styles::Kind::Whole
        },
        8 => styles::Kind::Sixteen,
        9 => styles::Kind::Unreserved,
        10 | 15 | 16 | 17 => styles::Kind::Whole,
        19 => if run / 25 % 2 == 0 {
            styles::Kind::Whole
        } else {
            styles::Kind::Least
        },
        26 => if run % 3 == 0 {
            styles::Kind::Sixteen
        } else {
            styles::Kind::Least
        },
        _ => styles::Kind::Least,
    }
}

pub fn of(kind: u32, case: u32) -> Case {
    let run = run_of(kind, case);
    Case {
        kind,
        case,
        seed: draw::draw(kind.wrapping_add(2000), case),
        run,
        shared: draw::draw(kind.wrapping_add(3000), run),
        style: style_of(kind, run),
    }
}

// The lines that are taken first.
pub fn first_lines(c: Case) -> u32 {
    match c.kind {
        0..=3 | 29 | 30 => 6,
        6 => 6500,
        7 => 1500,
        4..=11 => 70,
        12..=20 => draw::upto(c.seed, 80, 9),
        21..=23 => 22,
        26 => if c.run % 3 == 0 { 200 } else { 30 },
        28 => 150,
        31 => 2 + draw::upto(c.seed, 80, 3),
        32 => draw::upto(c.seed, 80, 250),
        33 => 85 * (1 + c.case % 3),
        34 => 4300,
        35 => 300,
        36 => 40,
        37 => 20,
        38..=42 => 8,
        43 => 30,
        _ => 0,
    }
}

// In rows there are few yields or none.
pub fn weights(c: Case) -> Weights {
    Weights {
        offers: 9,
        writebacks: match c.kind {
            6 => 12,
            35 => 8,
            _ => 4,
        },
        yields: match c.kind {
            11 => 10,
            43 => 5,
            32 => c.case / 16 % 2,
            35 => c.case / 2 % 2,
            31..=37 => 0,
            _ => 3,
        },
    }
}

// The bytes lent for the text.
pub fn lent(c: Case) -> usize {
    match c.kind {
        26 | 37 => (c.case % 700) as usize,
        42 => (c.case % 30) as usize,
        _ => BUFFER,
    }
}

fn plan_of(c: Case) -> Plan {
    styles::plan_of(c.style, c.run, c.shared)
}

// Puts the plan into the file and answers its bytes.
pub fn put_plan(file: &mut [u8], c: Case) -> usize {
    let p = plan_of(c);
    let t = model_plans::write(u32::from(p.period), values::words(p), file);
    t.bytes as usize
}

// Opens the plan's state.
pub fn open(s: &mut [u64], c: Case) {
    let p = plan_of(c);
    model_calls::open(u32::from(p.period), values::words(p), s);
}
