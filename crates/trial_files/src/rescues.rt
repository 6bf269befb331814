// The files of the kinds that are rescued, put where all bytes are zero: chains with a fault or with too much reserved, files
// that are to stay as they are, and bytes of any sort.
ghost use Rattle.std.specs.Prelude.{◌≤◌};

use super::Case;
use plan::Plan;
use trial_kit::chain::Chain;
use trial_kit::files::bytes_of;
use trial_kit::spoiled::Spot;
use trial_kit::{bytes, chain, draw, files, rest, spoiled, values};

// From 1 to 16 domains, by a turn.
fn domains_of(turn: u32) -> u32
    ensures { (1 ≤ result) × (result ≤ 16) }
{
    1 + turn % 16
}

// How many records a file has for a chain of so many domains: two more at least, mostly few, up to 64.
// `domains ≤ 16` is required here and below: a type for it would be made and taken apart at each use.
fn records_for(domains: u32, seed: u32) -> u32
    requires { domains ≤ 16 }
{
    let most = if draw::upto(seed, 20, 3) == 0 {
        62
    } else {
        domains + 5
    };
    let more = draw::upto(seed, 21, most.saturating_sub(domains));
    (domains + 2).wrapping_add(more)
}

// The plan with all of Q reserved for writebacks in its place, and W of P.
fn written(p: Plan) -> Plan {
    let mut after = p;
    let reserved = p.reservation;
    let period = p.period;
    after.writebackreservation = reserved;
    after.writebackcap = [period; 16];
    after.reservation = [0; 16];
    after
}

// Sixteen domains that reserve P, mostly more than P, 65,536, or mostly more than P for writebacks alone.
fn plan_of(way: u32, seed: u32) -> Plan {
    match way {
        0 => values::drawn(seed, values::Kind::Whole),
        1 => values::drawn(seed, values::Kind::Over),
        2 => values::drawn(seed, values::Kind::Full),
        _ => written(values::drawn(seed, values::Kind::Over)),
    }
}

// Of six numbers three are of zeros.
fn any_fill(drawn: u32) -> bytes::Kind {
    match drawn {
        0 => bytes::Kind::Any,
        1 => bytes::Kind::Sparse,
        2 => bytes::Kind::Small,
        _ => bytes::Kind::Zeros,
    }
}

fn order_of(turn: u32) -> chain::Order {
    match turn % 3 {
        0 => chain::Order::Rising,
        1 => chain::Order::Falling,
        _ => chain::Order::Drawn,
    }
}

// Lays so many domains of a plan. By the turn their records are in rising, falling or drawn order, with leftovers or without;
// leftovers are the other domains, over zeros or over bytes.
fn laid(file: &mut [u8], p: Plan, domains: u32, turn: u32, seed: u32) -> Chain
    requires { domains ≤ 16 }
{
    let records = records_for(domains, seed);
    bytes::fill(
        file,
        bytes_of(records),
        seed,
        any_fill(draw::upto(seed, 22, 5)),
    );
    let mut c = chain::lay_in(file, p, records, order_of(turn), seed);
    chain::end_chain(file, c, domains);
    if turn / 3 % 2 == 0 {
        rest::clear(file);
    }
    c.domains = domains;
    c
}

// A chain of so many domains, laid in any of these ways.
fn any_laid(file: &mut [u8], p: Plan, domains: u32, seed: u32) -> Chain
    requires { domains ≤ 16 }
{
    laid(file, p, domains, draw::upto(seed, 24, 5), seed)
}

// 4 to 9 and 11.
fn fault_of(turn: u32) -> u32 {
    match turn % 7 {
        6 => 11,
        k => k + 4,
    }
}

// After how many records of a chain the fault is, each in turn: 4, 6 and 7 also behind the last, 5 and 7 not before one is taken.
fn place_of(fault: u32, domains: u32, turn: u32) -> u32
    requires { (1 ≤ domains) × (domains ≤ 16) }
{
    match fault {
        4 | 6 => turn % (domains + 1),
        5 | 7 => (turn % domains).wrapping_add(1),
        _ => turn % domains,
    }
}

// A chain with a fault: of each number, of each length, at each place, in each order, with leftovers and without.
fn faulty(file: &mut [u8], p: Plan, case: u32, seed: u32) -> Chain {
    let domains = domains_of(case / 42);
    let fault = fault_of(case / 6);
    let taken = place_of(fault, domains, case / 672);
    let c = laid(file, p, domains, case % 6, seed);
    spoiled::put_spot(file, c, Spot { fault, taken }, seed);
    c
}

// What the link behind so many records is put to: records of the chain, the end, and what no record is.
fn link_to(c: Chain, taken: u32, way: u32, seed: u32) -> u32 {
    let order = c.order;
    let records = c.records;
    match way % 14 {
        0 => chain::before(order, taken),
        1 => chain::record_at(order, 0),
        2 => chain::record_at(order, c.domains / 2),
        3 => chain::record_at(order, c.domains.saturating_sub(1)),
        4 => chain::record_at(order, draw::upto(seed, 25, c.domains)),
        5 => 0,
        6 => 64,
        7 => 65535,
        8 => records,
        9 => records.saturating_sub(1),
        10 => 256,
        11 => 256 + chain::record_at(order, taken),
        12 => records.wrapping_add(1),
        _ => draw::upto(seed, 26, 63),
    }
}

// A chain with each link of it, and record 0's, led elsewhere.
fn misled(file: &mut [u8], case: u32, seed: u32) -> Chain {
    let domains = domains_of(case);
    let taken = case / 16 % 17 % (domains + 1);
    let c = any_laid(file, plan_of(0, seed), domains, seed);
    let order = c.order;
    let from = chain::before(order, taken);
    let to = link_to(c, taken, case / 272, seed);
    bytes::put_pair(file, from, bytes::link_offset(from), to);
    c
}

// How many of the last domains reserve nothing: none, one, half of them, or all but the first.
fn zeros_of(way: u32, domains: u32) -> u32 {
    match way % 4 {
        0 => 0,
        1 => u32::from(domains > 1),
        2 => domains / 2,
        _ => domains.saturating_sub(1),
    }
}

// Puts both reservations of the last domains of a chain to 0.
fn unreserve(file: &mut [u8], c: Chain, last: u32) {
    let order = c.order;
    for k in 1..=last {
        let record = chain::record_at(order, c.domains.saturating_sub(k));
        bytes::put_pair(file, record, 4, 0);
        bytes::put_pair(file, record, 10, 0);
    }
}

// Raises Q of a record by so much, or its writeback reservation, and W with it.
fn reserve(file: &mut [u8], record: u32, more: u32, writes: bool) {
    let offset = if writes { 10 } else { 4 };
    let value = bytes::pair(file, record, offset).wrapping_add(more);
    bytes::put_pair(file, record, offset, value);
    if writes && bytes::pair(file, record, 8) < value {
        bytes::put_pair(file, record, 8, value);
    }
}

// What is left of the period behind a chain.
fn left_over(file: &[u8], c: Chain) -> u32 {
    let s = model_plans::sums(file);
    let told = s.told;
    let last = (c.domains.saturating_sub(1) % 16) as usize;
    c.period.saturating_sub(told[last])
}

// A chain that reserves P, or one more, with zero reservations last; one of the records before them makes it so much.
fn summed(file: &mut [u8], case: u32, seed: u32) -> Chain {
    let domains = domains_of(case);
    let zeros = zeros_of(case / 16, domains);
    let c = any_laid(file, plan_of(0, seed), domains, seed);
    unreserve(file, c, zeros);
    let order = c.order;
    let most = domains.saturating_sub(zeros).saturating_sub(1);
    let one = chain::record_at(order, draw::upto(seed, 27, most));
    let more = left_over(file, c).wrapping_add(case / 64 % 2);
    reserve(file, one, more, case / 128 % 2 == 1);
    c
}

// A chain that reserves far more than P, with zero reservations last.
fn overfull(file: &mut [u8], case: u32, seed: u32) -> Chain {
    let domains = domains_of(case);
    let c = any_laid(file, plan_of(1 + case / 64 % 3, seed), domains, seed);
    unreserve(file, c, zeros_of(case / 16, domains));
    c
}

// One of the chains with a fault, whose plan mostly reserves more than P.
fn any_faulty(file: &mut [u8], seed: u32) -> Chain {
    let p = plan_of(1 + draw::upto(seed, 28, 2), seed);
    faulty(file, p, draw::upto(seed, 30, 11423), seed)
}

// More than P is reserved, by far or by one, and there is a fault at any place.
fn both_wrong(file: &mut [u8], case: u32, seed: u32) -> Chain {
    if case % 2 == 0 {
        return any_faulty(file, seed);
    }
    let c = summed(file, 64 + case / 2 % 64, seed);
    let fault = fault_of(case / 128);
    let domains = domains_of(c.domains.saturating_sub(1));
    let taken = place_of(fault, domains, draw::upto(seed, 32, 16));
    spoiled::put_spot(file, c, Spot { fault, taken }, seed);
    c
}

// A file that is accepted: any, or a chain with zero reservations last and free records.
fn accepted(file: &mut [u8], case: u32, seed: u32) -> Chain {
    if case % 2 == 0 {
        return files::put_good(file, seed);
    }
    let domains = domains_of(case / 2);
    let c = laid(file, plan_of(0, seed), domains, case / 32 % 3, seed);
    unreserve(file, c, zeros_of(case / 96, domains));
    c
}

// A file with leftovers alone: any bytes, or domains, or over zeros a byte in one of the first records off the chain.
fn left(file: &mut [u8], case: u32, seed: u32) -> Chain {
    let style = match case % 3 {
        0 => bytes::Kind::Any,
        1 => bytes::Kind::Small,
        _ => bytes::Kind::Zeros,
    };
    bytes::fill(file, files::LONGEST, seed, style);
    let c = files::put_good(file, seed);
    spoiled::put_in(file, rest::nth(file, draw::upto(seed, 29, 3)), seed);
    c
}

// Bytes of any sort, or of small fields, behind a record 0 that is followed.
fn rough(file: &mut [u8], case: u32, seed: u32) -> u32 {
    match case % 4 {
        0 => files::filled(file, bytes::Kind::Any, 0, seed),
        1 => files::filled(file, bytes::Kind::Sparse, 0, seed),
        2 => files::filled(file, bytes::Kind::Small, 0, seed),
        _ => files::small(file, seed),
    }
}

// A file of every length, over records that name each other.
fn of_length(file: &mut [u8], case: u32, seed: u32) -> u32 {
    bytes::fill(file, files::LONGEST, seed, bytes::Kind::Small);
    files::lengths(file, case, seed)
}

// A chain with a fault in a file that is refused with 1, 2 or 3; now and then with a later number of these beside.
fn unopened(file: &mut [u8], case: u32, seed: u32) -> u32 {
    let number = 1 + case % 3;
    let c = any_faulty(file, seed);
    spoiled::spoil(
        file,
        c,
        number + draw::upto(seed, 31, 3 - number),
        case / 3,
        seed,
    );
    spoiled::spoil(file, c, number, case / 3, seed)
}

// The kinds of chains.
fn put_chain(file: &mut [u8], of: Case) -> Chain {
    let case = of.case;
    let seed = of.seed;
    match of.kind {
        19 => misled(file, case, seed),
        20 => summed(file, case, seed),
        21 => overfull(file, case, seed),
        22 | 29 => both_wrong(file, case, seed),
        23 => accepted(file, case, seed),
        24 => left(file, case, seed),
        _ => faulty(file, plan_of(0, seed), case, seed),
    }
}

fn chained(file: &mut [u8], of: Case) -> u32 {
    let c = put_chain(file, of);
    bytes_of(c.records)
}

// Puts the file of a case of a kind from 18 on, and answers its length.
pub fn put(file: &mut [u8], of: Case) -> u32 {
    let case = of.case;
    let seed = of.seed;
    match of.kind {
        25 => rough(file, case, seed),
        26 => files::one_byte(file, case, seed),
        27 => of_length(file, case, seed),
        28 => unopened(file, case, seed),
        _ => chained(file, of),
    }
}
