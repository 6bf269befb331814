// The replay: reads the file `plan` and a script on standard input, and prints the periods.
#![tactic(auto)]

ghost use Rattle.std.specs.Prelude.{◌≡◌, length};
ghost use Rattle.parts.specs.Input.{Kept};
ghost use Rattle.replay.specs.Buffers.{Within};

use parts::{Behind, Part};
use script::Run;
use std::io::{Read, Write};

// The bytes of each of the two buffers: the part of the script in hand, and text that is still to be written.
const BUFFER: usize = 65536;

// The bytes of the output buffer that are kept free for what one line prints.
const ROOM: usize = 512;

// A script that is read part by part: the run, and the part in hand. A write that fails ends it as a read that fails does.
#[derive(Clone, Copy)]
struct Stream {
    run: Run,
    part: Part,
}

// Keeps what is left of the part, and reads more of the script behind it.
fn read_more<R: Read>(
    r: Run,
    source: &mut R,
    text: &mut [u8],
    filled: usize,
    out_room: usize,
) -> Stream
    requires { Within r filled (length text.old) out_room }
    ensures within { Within result.run result.part.filled (length text.new) out_room }
    ensures kept { Kept r.used filled text.old text.new }
{
    let part = parts::refill(source, text, r.used, filled);
    let run = Run { used: 0, ..r };
    Stream { run, part }
}

// Writes the text out, and goes on with an empty output buffer.
fn write_block<W: Write>(r: Run, filled: usize, room: usize, out: &[u8], sink: &mut W) -> Stream
    requires { Within r filled room (length out.now) }
    ensures { Within result.run result.part.filled room (length out.now) }
{
    let behind = match sink.write_all(&out[..r.at]) {
        Ok(()) => Behind::More,
        Err(_) => Behind::Failure,
    };
    let run = Run { at: 0, ..r };
    let part = Part { filled, behind };
    Stream { run, part }
}

// Carries out the lines of the part, and then makes room in one of the two buffers.
fn advance<R: Read, W: Write>(
    s: Stream,
    source: &mut R,
    text: &mut [u8],
    sink: &mut W,
    out: &mut [u8],
) -> Stream
    requires { Within s.run s.part.filled (length text.old) (length out.old) }
    ensures { Within result.run result.part.filled (length text.new) (length out.new) }
{
    let filled = s.part.filled;
    let run = script::feed(s.run, &text[..filled], out, ROOM);
    if run.refused != 0 {
        let part = Part {
            filled,
            behind: Behind::End,
        };
        return Stream { run, part };
    }
    if out.len() - run.at < ROOM {
        return write_block(run, filled, text.len(), out, sink);
    }
    read_more(run, source, text, filled, out.len())
}

// Reads the script to its end, or to a line that is refused.
fn read_script<R: Read, W: Write>(
    run: Run,
    source: &mut R,
    text: &mut [u8],
    sink: &mut W,
    out: &mut [u8],
) -> Stream
    requires { Within run 0 (length text.old) (length out.old) }
    ensures { Within result.run result.part.filled (length text.new) (length out.new) }
{
    let part = Part {
        filled: 0,
        behind: Behind::More,
    };
    let mut s = Stream { run, part };
    // Not a bare loop: a function is proved to end, and no script has so many parts.
    for _ in 0..u64::MAX {
        if s.part.behind != Behind::More {
            return s;
        }
        s = advance(s, source, text, sink, out);
    }
    s
}

fn complain(rt: &impl Eprint) {
    let _ = eprintln!(rt; "replay: a read or a write failed, the text is not whole");
}

// The end of the run: the rest of the text. Tells whether the text is whole.
fn conclude<W: Write>(s: Stream, text: &[u8], sink: &mut W, out: &mut [u8]) -> bool
    requires { Within s.run s.part.filled (length text.now) (length out.old) }
{
    if s.part.behind == Behind::Failure {
        let _ = sink.write_all(&out[..s.run.at]);
        return false;
    }
    let at = script::finish(s.run, &text[..s.part.filled], out);
    sink.write_all(&out[..at]).is_ok()
}

fn main(rt: HostRuntime) {
    let mut plan = [0u8; 1040];
    let n = parts::read_file(&rt, b"plan", &mut plan);
    let mut text = [0u8; BUFFER];
    let mut out = [0u8; BUFFER];
    let run = script::start(&plan[..n], &mut out);
    let s = read_script(run, &mut rt.stdin(), &mut text, &mut rt.stdout(), &mut out);
    if !conclude(s, &text, &mut rt.stdout(), &mut out) {
        complain(&rt);
    }
}
