// The library's replay of a script, or its answer to a question on it, where the script comes part by part: each part is a longer
// piece of the script's start.
ghost use Rattle.std.specs.Prelude.{◌≡◌, ◌<◌};
ghost use Rattle.script.specs.Feeding.{Sound};
ghost use Rattle.question.specs.Seeking.{Sound as SoundSearch};

use question::Search;
use script::Run;

// One less than the bytes of the first part, and than those that each other part is longer.
#[derive(Clone, Copy)]
pub struct Parts {
    pub first: u8,
    pub step: u8,
}

// Parts that are 1 to 64 bytes longer each time.
pub fn drawn(seed: u8) -> Parts {
    Parts {
        first: seed % 64,
        step: seed % 64,
    }
}

// Parts that end at one of the places of each line, where all lines have 20 bytes.
pub fn at_place(place: u32) -> Parts {
    Parts {
        first: (place % 20) as u8,
        step: 19,
    }
}

// The first part has `first` bytes, each other is `step` bytes longer than the last; and `step` bytes of the buffer are asked to
// be free for a line. A `while`: `step_by` is no plainer, since the ends of the parts have to be ordered for what was used.
fn fed(run: Run, script: &[u8], out: &mut [u8], first: usize, step: usize) -> usize
    requires sound { Sound run }
    requires used_value { run.used ≡ 0 }
    requires first_nonzero { (0 < first) × (0 < step) }
{
    let mut r = run;
    let mut end: usize = 0;
    let mut more = first;
    while more < script.len() - end {
        end += more;
        r = script::feed(r, &script[..end], out, step);
        more = step;
    }
    script::finish(r, script, out)
}

// The text of a replay in parts.
pub fn replayed(file: &[u8], script: &[u8], out: &mut [u8], p: Parts) -> usize {
    let run = script::start(file, out);
    fed(run, script, out, p.first as usize + 1, p.step as usize + 1)
}

// The search through such parts, of which the last is the script whole; a `while` as above.
fn sought(search: Search, script: &[u8], first: usize, step: usize) -> Search
    requires sound_search { SoundSearch search }
    requires used_value { search.used ≡ 0 }
    requires first_nonzero { (0 < first) × (0 < step) }
    ensures { SoundSearch result }
{
    let mut q = search;
    let mut end: usize = 0;
    let mut more = first;
    while more < script.len() - end {
        end += more;
        q = question::seek(q, &script[..end]);
        more = step;
    }
    question::seek(q, script)
}

// The text of the answer to a question, of a script in parts.
pub fn asked(file: &[u8], ask: &[u8], script: &[u8], out: &mut [u8], p: Parts) -> usize {
    let search = question::start(file, ask);
    let found = sought(search, script, p.first as usize + 1, p.step as usize + 1);
    question::finish(found, out)
}
