// A plan laid into a file as a chain of records in any order.
ghost use Rattle.std.specs.Prelude.{◌≤◌};

use super::{bytes, draw, values};
use plan::Plan;

// What a file was laid with: its records, its period, how many domains are on the chain and the record of each.
// These are an array with their count, since what lays files has no heap.
#[derive(Clone, Copy)]
pub struct Chain {
    pub records: u32,
    pub period: u32,
    pub domains: u32,
    pub order: [u32; 64],
}

// The record at a position of the chain, from 0.
pub fn record_at(order: [u32; 64], position: u32) -> u32
    ensures { result ≤ 64 }
{
    1 + draw::entry(order, position)
}

// How far the chain is laid: the records in use, of how many, and the last of them.
#[derive(Clone, Copy)]
struct Laid {
    used: u32,
    most: u32,
    last: u32,
}

// The record of a domain, with no link behind it.
fn put_domain(file: &mut [u8], p: Plan, record: u32, domain: u32) {
    let k = domain % 16 * 6;
    let q = values::word(p, k + 1);
    let r = values::word(p, k + 2);
    let w = values::word(p, k + 3);
    let v = values::word(p, k + 4);
    bytes::put_record(file, record, [0, domain % 16 + 1, q, r, w, v]);
    bytes::put(
        file,
        bytes::place(record, 3),
        draw::low(values::word(p, k + 5)),
    );
}

// Lays one domain at the chain's end, if it is planned and a record is left.
fn with_domain(file: &mut [u8], p: Plan, order: [u32; 64], l: Laid, domain: u32) -> Laid {
    if values::word(p, domain % 16 * 6) == 0 || l.used >= l.most {
        return l;
    }
    let index = record_at(order, l.used);
    bytes::put_pair(file, l.last, bytes::link_offset(l.last), index);
    put_domain(file, p, index, domain);
    Laid {
        used: l.used + 1,
        last: index,
        ..l
    }
}

// How the records of a chain stand in the file: one behind the other, one before the other from the last on, or as drawn.
#[derive(Clone, Copy)]
pub enum Order {
    Rising,
    Falling,
    Drawn,
}

// The first so many records from 1 up in such an order.
fn row_of(order: Order, most: u32, seed: u32) -> [u32; 64] {
    match order {
        Order::Rising => draw::row(most, false),
        Order::Falling => draw::row(most, true),
        Order::Drawn => draw::shuffled(seed, 500, most),
    }
}

// Lays a plan into so many records, those off the chain left as they are. The chain's order and its records are drawn.
pub fn lay(file: &mut [u8], p: Plan, records: u32, seed: u32) -> Chain {
    lay_in(file, p, records, Order::Drawn, seed)
}

// Lays a plan with the chain's records in rising, falling or drawn order.
pub fn lay_in(file: &mut [u8], p: Plan, records: u32, order: Order, seed: u32) -> Chain {
    let most = records.saturating_sub(1);
    let order = row_of(order, most, seed);
    let domains = draw::shuffled(seed, 600, 16);
    let period = u32::from(p.period);
    bytes::put_record(file, 0, [period, 0, 0, 0, 0, 0]);
    let used = lay_domains(file, p, order, domains, most);
    Chain {
        records,
        period,
        domains: used,
        order,
    }
}

fn lay_domains(file: &mut [u8], p: Plan, order: [u32; 64], domains: [u32; 64], most: u32) -> u32 {
    let mut l = Laid {
        used: 0,
        most,
        last: 0,
    };
    for n in 0..16 {
        l = with_domain(file, p, order, l, draw::entry(domains, n));
    }
    l.used
}

// The record whose link is followed after so many.
pub fn before(order: [u32; 64], taken: u32) -> u32 {
    if taken == 0 {
        0
    } else {
        record_at(order, taken - 1)
    }
}

// Ends the chain after so many of its records.
pub fn end_chain(file: &mut [u8], c: Chain, taken: u32) {
    let order = c.order;
    let last = before(order, taken);
    bytes::put_pair(file, last, bytes::link_offset(last), 0);
}
