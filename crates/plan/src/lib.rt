// Plans: the plan value, the plan file, and the way between the two.
//
// check(p): would a plan held as a value be accepted? If not, 2, 9, 11 or 10 with its place.
// read(file): the plan of a file, or a refusal 1 to 12 with its place, for any bytes.
// read_with_leftovers(file): the same by the earlier rule, which takes leftovers: it never answers 12.
// sums_told(file): how many records the walk along the chain takes, and the sum of both reservations after each, for any bytes.
// write(p, buffer): the file of a plan, in lent bytes; 2, 9, 11, 10 or 51, or the bytes written.
// write_and_read(p, buffer): a plan written and read again; its contract is the round trip.
//
// u16_at, record_part, put_record, domain_record and next_index are what a caller needs that writes records of a file itself:
// they require that a record is there. all_reserved is the sum of both reservations, no_domains a plan without domains, and
// is_outside, any_above and is_above_cap are the tests of a domain's numbers, in numbers so wide that nothing is cut.
#![tactic(auto)]

mod chain;
mod leftovers;
mod reading;
mod records;
mod refusal;
mod roundtrip;
mod sums;
mod value;
mod writing;

pub use chain::Sums;
pub use reading::{read, read_with_leftovers};
pub use records::{domain_record, put_record, record_part, u16_at};
pub use refusal::{Fault, Refused};
pub use roundtrip::write_and_read;
pub use sums::sums_told;
pub use value::{
    Domain, Plan, all_reserved, any_above, check, is_above_cap, is_outside, no_domains,
};
pub use writing::{next_index, write};
