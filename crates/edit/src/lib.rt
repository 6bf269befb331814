// Editing a plan file that is lent, without rewriting it, and rescuing one (document 02, Points 4 and 14).
//
// drop_domain(file, number): joins the chain over the record of a domain and zeroes it, for any bytes and number; or a refusal of
// reading with its place, or 72.
// add_domain(file, domain): overwrites the highest record off the chain and puts it last on the chain, for any bytes and domain;
// or a refusal of reading with its place, or 6, 7, 9, 11, 10 or 71.
// compact(file): moves the chain's records to the front in chain order, relinks them and zeroes the others, for any bytes; or a
// refusal of reading by the earlier rule, which takes leftovers.
// rescue(file): ends the chain at the first link that draws 4 to 9 or 11, drops records from its end while the reservations sum
// above the period, and zeroes the records off it, for any bytes, and counts the records kept; or a refusal 1 to 3. Its output is
// accepted.
//
// A refused edit keeps every byte.
#![tactic(auto)]

mod adding;
mod chain;
mod compacting;
mod dropping;
mod faults;
mod records;
mod rescuing;

pub use adding::{NewDomain, add_domain};
pub use compacting::compact;
pub use dropping::drop_domain;
pub use faults::EditFault;
pub use rescuing::rescue;
