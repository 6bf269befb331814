// Input for a program that works in constant memory: a file read whole, and standard input read part by part.
//
// read_file(files, name, buffer): how many bytes of a file went to the lent buffer.
// read_full(input, buffer): the same of a reader, to its end, to the buffer's or to a failed read.
// refill(input, text, used, filled): keeps what is left of the part in hand, and reads more of the input behind it.
#![tactic(auto)]

mod file;
mod input;

pub use file::{read_file, read_full};
pub use input::{Behind, Part, refill};
