// Scripts: the line reader, what the replay prints, and the replay.
//
// read_line(line, offers): one line without its byte 10, as an enum; the offers of a slot line go to the lent buffer.
// replay(plan, script, out): all that the replay prints, for any bytes of a plan file and of a script.
//
// start, feed and finish are the replay for a script that comes part by part. feed and finish require what start and feed ensure
// of the run that they answer, so that no line checks again that the state adds up.
//
// line_end, is_open_end, read_numbers and what puts text into a lent buffer are for another program over scripts.
#![tactic(auto)]

mod carrying;
mod feeding;
mod line;
mod output;
mod text;

pub use feeding::{Run, feed, finish, is_open_end, line_end, opened, replay, start};
pub use line::{Line, Numbers, read_line, read_numbers};
pub use output::Text;
pub use text::put_plan_refused;
