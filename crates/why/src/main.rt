// Why an offer passed or did not: reads the files `plan` and `ask` and a script on standard input, and prints a verdict and its cause.
#![tactic(auto)]

ghost use Rattle.std.specs.Prelude.{length};
ghost use Rattle.parts.specs.Input.{Kept};
ghost use Rattle.question.specs.Seeking.{Sound};
ghost use Rattle.why.specs.Buffers.{Within};

use parts::{Behind, Part};
use question::Search;
use std::io::{Read, Write};

// The bytes of the buffer that holds the part of the script in hand.
const BUFFER: usize = 65536;

// A script that is read part by part: the search for the slot, and the part in hand.
#[derive(Clone, Copy)]
struct Stream {
    search: Search,
    part: Part,
}

// Keeps what is left of the part, and reads more of the script behind it.
fn read_more<R: Read>(q: Search, source: &mut R, text: &mut [u8], filled: usize) -> Stream
    requires { Within q filled (length text.old) }
    ensures within { Within result.search result.part.filled (length text.new) }
    ensures kept { Kept q.used filled text.old text.new }
{
    let part = parts::refill(source, text, q.used, filled);
    let search = question::from_start(q);
    Stream { search, part }
}

// Looks for the slot in the part, and reads more of the script where it is still to be found.
fn advance<R: Read>(s: Stream, source: &mut R, text: &mut [u8]) -> Stream
    requires { Within s.search s.part.filled (length text.old) }
    ensures { Within result.search result.part.filled (length text.new) }
{
    let filled = s.part.filled;
    let search = question::seek(s.search, &text[..filled]);
    if question::goes_on(search) {
        return read_more(search, source, text, filled);
    }
    let part = Part {
        filled,
        behind: Behind::End,
    };
    Stream { search, part }
}

// Reads the script until the slot is found, or to its end.
fn read_script<R: Read>(search: Search, source: &mut R, text: &mut [u8]) -> Stream
    requires { Within search 0 (length text.old) }
    ensures { Within result.search result.part.filled (length text.new) }
{
    let part = Part {
        filled: 0,
        behind: Behind::More,
    };
    let mut s = Stream { search, part };
    // Not a bare loop: a function is proved to end, and no script has so many parts.
    for _ in 0..u64::MAX {
        if s.part.behind != Behind::More {
            return s;
        }
        s = advance(s, source, text);
    }
    s
}

fn complain(rt: &impl Eprint) {
    let _ = eprintln!(rt; "why: a read or a write failed, nothing is told");
}

// Writes the line. Tells whether it was written; it is not where the system failed to read.
fn tell<W: Write>(s: Stream, sink: &mut W) -> bool
    requires { Sound s.search }
{
    if s.part.behind == Behind::Failure {
        return false;
    }
    let mut out = [0u8; 64];
    let n = question::finish(s.search, &mut out);
    sink.write_all(&out[..n]).is_ok()
}

fn main(rt: HostRuntime) {
    let mut plan = [0u8; 1040];
    let plan_length = parts::read_file(&rt, b"plan", &mut plan);
    let mut ask = [0u8; 16];
    let ask_length = parts::read_file(&rt, b"ask", &mut ask);
    let search = question::start(&plan[..plan_length], &ask[..ask_length]);
    let mut text = [0u8; BUFFER];
    let s = read_script(search, &mut rt.stdin(), &mut text);
    if !tell(s, &mut rt.stdout()) {
        complain(&rt);
    }
}
