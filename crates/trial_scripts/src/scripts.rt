// The script of a case.
use super::cases::Case;
use super::wrong::{Edit, Way};
use super::{cases, lines, wrong};
use model_replay::text::Text;
use trial_kit::{bytes, draw};

// A line that is put among others.
#[derive(Clone, Copy, Debug, PartialEq, Eq)]
enum Among {
    // A slot line or a yield line, edited.
    Slot(Way),
    Yield(Way),
    // A slot line whose offers, or a yield line whose amounts, may not be taken.
    Offers,
    Amounts,
    Long,
    Nothing,
}

impl Among {
    // The nine lines are numbered from 0 on.
    fn of(number: u32) -> Among {
        match number {
            0..=2 => Among::Slot(Way::of(number)),
            3..=5 => Among::Yield(Way::of(number - 3)),
            6 => Among::Offers,
            7 => Among::Amounts,
            8 => Among::Long,
            _ => Among::Nothing,
        }
    }
}

// A slot line edited: each of its twenty places in turn, and each value in turn.
fn put_edited_slot(to: &mut Text<'_>, s: &[u64], way: Way, c: Case) {
    let mut line = [0u8; 20];
    let offers = lines::drawn_offers(s, cases::weights(c), c.seed);
    let mut whole = Text::from(&mut line, 0);
    lines::put_slot(&mut whole, &offers, 17);
    let size = whole.end().min(20);
    wrong::put_edited(to, &line[..size], Edit::of(way, 20, c.case));
}

// The same of a yield line, and of its first ten places.
fn put_edited_yield(to: &mut Text<'_>, s: &[u64], way: Way, c: Case) {
    let mut line = [0u8; 20];
    let mut whole = Text::from(&mut line, 0);
    lines::put_yield(&mut whole, lines::drawn_yield(s, c.seed));
    let size = whole.end().min(20);
    wrong::put_edited(to, &line[..size], Edit::of(way, 10, c.case));
}

fn put_offers(to: &mut Text<'_>, s: &[u64], c: Case) {
    let mut offers = lines::drawn_offers(s, cases::weights(c), c.seed);
    wrong::spoil_offers(&mut offers, c.case, c.seed);
    lines::put_slot(to, &offers, 17);
}

fn put_amounts(to: &mut Text<'_>, s: &[u64], c: Case) {
    let y = lines::drawn_yield(s, c.seed);
    let claim = lines::word(s, y.domain.value, 5);
    lines::put_yield(to, wrong::spoiled_yield(y, claim, c.case, c.seed));
}

// One line put, or none; a long one has 100,000 digits, or a part of so many.
fn put_line(to: &mut Text<'_>, s: &[u64], line: Among, c: Case) {
    match line {
        Among::Slot(way) => put_edited_slot(to, s, way, c),
        Among::Yield(way) => put_edited_yield(to, s, way, c),
        Among::Offers => put_offers(to, s, c),
        Among::Amounts => put_amounts(to, s, c),
        Among::Long => lines::put_slot(to, b"", 100000 / (c.case % 1000 + 1) as usize),
        Among::Nothing => {}
    }
}

// One line put, and three that would be taken.
fn put_among(to: &mut Text<'_>, s: &mut [u64], line: Among, c: Case) {
    put_line(to, s, line, c);
    lines::put_lines(to, s, cases::weights(c), c.seed, 3);
}

// A line put in one of the nine ways, most often with offers that may not be taken, and a hundred that would be; or these alone,
// of which in a tenth way the last one is cut. Answers the script's bytes.
fn put_in_row(to: &mut Text<'_>, s: &mut [u64], c: Case) -> usize {
    let number = c.case % 16;
    let line = match number {
        12..=15 => Among::Offers,
        _ => Among::of(number),
    };
    let of = Case {
        case: draw::draw(c.seed, 81),
        ..c
    };
    put_line(to, s, line, of);
    lines::put_lines(to, s, cases::weights(c), c.seed, 100);
    if number == 9 {
        to.end().wrapping_sub(1 + (of.case % 19) as usize)
    } else {
        to.end()
    }
}

// A byte of the sort that scripts are made of, or any.
fn letter(x: u32) -> u8 {
    match x % 8 {
        0 => draw::low(x / 8),
        1 => 10,
        2 => 13,
        3 => b' ',
        4 => b's',
        5 => b'y',
        _ => lines::figure(x / 8),
    }
}

fn spoil_byte(script: &mut [u8], size: usize, seed: u32) {
    if size > 0 {
        bytes::put(
            script,
            draw::draw(seed, 90) as usize % size,
            letter(draw::draw(seed, 91)),
        );
    }
}

// So many bytes damaged, where there are any.
pub fn spoil(script: &mut [u8], size: usize, count: u32, seed: u32) {
    for i in 0..count {
        spoil_byte(script, size, draw::draw(seed, i.wrapping_add(92)));
    }
}

fn put_bytes(script: &mut [u8], seed: u32) -> usize {
    let size = draw::upto(seed, 95, 200);
    bytes::fill(script, size, seed, bytes::Kind::Any);
    size as usize
}

// A whole slot line, a whole yield line, or a part of the lines.
fn put_piece(to: &mut Text<'_>, seed: u32) {
    let (from, end) = match draw::upto(seed, 1, 3) {
        0 => (0, 20),
        1 => (20, 26),
        _ => (
            draw::upto(seed, 2, 18) as usize,
            18 + draw::upto(seed, 3, 18) as usize,
        ),
    };
    lines::put_part(to, b"s 10000000000000000\ny 1 1\ny 02 0001\n", from, end);
}

fn put_pieces(to: &mut Text<'_>, seed: u32) {
    for i in 0..1 + draw::upto(seed, 98, 6) {
        put_piece(to, draw::draw(seed, i.wrapping_add(100)));
    }
}

// A line of neither form behind all others, in every second case, run of short buffers, or twenty cases of a place each.
fn put_last(to: &mut Text<'_>, c: Case) {
    let number = match c.kind {
        26 => c.run,
        cases::PLACES => c.case / 20,
        _ => c.case,
    };
    if number % 2 == 1 {
        to.text(b"x\n");
    }
}

// One line without its byte 10, put in one of the first eight ways, and in half of the cases with a byte damaged.
fn put_one(script: &mut [u8], s: &[u64], c: Case) -> usize {
    let of = Case {
        case: c.case / 8,
        ..c
    };
    let mut to = Text::from(script, 0);
    put_line(&mut to, s, Among::of(c.case % 8), of);
    let size = to.end().saturating_sub(1);
    spoil(script, size, c.case / 8 % 2, c.seed);
    size
}

// What follows the lines so far, or pieces of lines where there are none; answers the script's bytes.
fn put_more(to: &mut Text<'_>, s: &mut [u64], c: Case) -> usize {
    match c.kind {
        6 | 7 | 26 | 36 => put_last(to, c),
        kind @ 12..=20 => put_among(to, s, Among::of(kind - 12), c),
        25 => put_pieces(to, c.seed),
        31 => put_among(to, s, Among::Slot(Way::Changed), c),
        32 => return put_in_row(to, s, c),
        _ => {}
    }
    to.end()
}

// The lines that are taken first, and what follows them.
fn put_text(script: &mut [u8], s: &mut [u64], c: Case) -> usize {
    let mut to = Text::from(script, 0);
    lines::put_lines(
        &mut to,
        s,
        cases::weights(c),
        c.shared,
        cases::first_lines(c),
    );
    put_more(&mut to, s, c)
}

// Puts the script and answers its bytes: lines, of which a part may be cut, drawn bytes, or one line. The words lent are those of
// the model's state, and behind them the verdicts told.
pub fn put(script: &mut [u8], s: &mut [u64], c: Case) -> usize {
    let words = s.len().min(lines::TOLD);
    cases::open(&mut s[0..words], c);
    let size = match c.kind {
        23 => put_text(script, s, c).min((c.case % 400) as usize),
        24 => put_bytes(script, c.seed),
        27 => put_one(script, s, c),
        _ => put_text(script, s, c),
    };
    spoil(script, size, spoiled(c.kind), c.seed);
    size
}

// How many bytes of a script are damaged.
fn spoiled(kind: u32) -> u32 {
    match kind {
        21 => 1,
        22 => 3,
        _ => 0,
    }
}
