// A question about a verdict: the file `ask`, the slot that it names in the run of a script, and the line that answers it.
//
// why(plan, ask, script, out): all that is printed, for any bytes of the two files and of a script.
//
// start, seek and finish are the same for a script that comes part by part: seek and finish require what start and seek ensure of the
// search that they answer. goes_on tells whether more of the script is wanted, and from_start puts a search at the front of a part.
#![tactic(auto)]

mod answer;
mod answering;
mod ask;
mod seeking;

pub use answering::{finish, why};
pub use seeking::{Search, Stage, from_start, goes_on, seek, start};
