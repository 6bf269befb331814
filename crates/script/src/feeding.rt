// The replay: lines carried out one after the other, on a script in memory or on one that comes part by part.
ghost use Rattle.std.specs.Prelude.{◌≡◌, false, List, ℕ, ◌≤◌, ◌<◌, min, length, drop};
ghost use Rattle.script.specs.Replay.{Opened, replay_text};
ghost use Rattle.script.specs.Output.{output, put, holding};
ghost use Rattle.script.specs.Feeding.{rest_text, Sound, lacks_room, Fed, Feeds, Started};
ghost use Rattle.script.specs.Inner.{LineEnd, open_end};

use super::line::place_of;
use super::output::Text;
use super::{carrying, text};
use plan::Refused;
use regulator::State;

// More bytes than a line of either form has.
const TOO_LONG: usize = 20;

// The bytes of a slot line, its byte 10 included.
const SLOT_LINE: usize = 20;

// A replay between two lines: the state, the number of the next line, 0 or the number that refused the plan or a line, the bytes of the
// part of the script in hand that are done, and the bytes of text in the lent buffer. `refused` stays a number, 0 for none: so the
// definitions tell what is left to print (`rest_text`, `Feeds`), and it is printed as it stands.
#[derive(Clone, Copy)]
pub struct Run {
    pub state: State,
    pub line: u64,
    pub refused: u8,
    pub used: usize,
    pub at: usize,
}

// Where the line that starts at an index ends: at its byte 10; or where it is too long, whatever follows; or else at the end of the part.
pub fn line_end(part: &[u8], from: usize) -> usize
    requires { from ≤ length part.now }
    ensures { LineEnd part.now from result }
{
    let rest = &part[from..];
    let most = rest.len().min(TOO_LONG);
    from + place_of(b'\n', &rest[..most]).unwrap_or(most)
}

// Carries out the line of a part that ends at `end`.
fn next_line(r: Run, part: &[u8], end: usize, out: &mut [u8], room: usize) -> Run
    requires sound { Sound r }
    requires refused_value { r.refused ≡ 0 }
    requires line_end { LineEnd part.now r.used end }
    requires part_value { open_end r.used end (length part.now) ≡ false }
    requires room_value { lacks_room r.at (length out.old) room ≡ false }
    ensures fed { Fed part.now room r out.old result out.new }
    ensures used_lt_used { result.refused ≡ 0 → r.used < result.used }
{
    let mut text = Text { out, at: r.at };
    match carrying::carry_out(r.state, &part[r.used..end], &mut text) {
        Ok(state) => Run {
            state,
            line: r.line + 1,
            refused: 0,
            used: end + 1,
            at: text.at,
        },
        Err(fault) => {
            let refused = fault.number();
            text::put_line_refused(&mut text, r.line, refused);
            Run {
                refused,
                used: end,
                at: text.at,
                ..r
            }
        }
    }
}

// Takes the plain slot lines of a part, from what is done of it on, as long as there are any. Nothing is printed for them, so they need
// no room.
fn plain_lines(r: Run, part: &[u8]) -> Run
    requires sound { Sound r }
    requires refused_value { r.refused ≡ 0 }
    requires used_in_bounds { r.used ≤ length part.now }
    ensures by_index { (room : ℕ) (b : List ℕ) → Fed part.now room r b result b }
    ensures refused_value_2 { (result.refused ≡ 0) × (r.used ≤ result.used) }
{
    let s = r.state;
    let c = slots::carry(s, r.used, part);
    let state = c.state;
    Run {
        state,
        line: r.line + ((c.at - r.used) / SLOT_LINE) as u64,
        refused: 0,
        used: c.at,
        at: r.at,
    }
}

// Are fewer than `room` bytes of a buffer free?
fn lacks_room(at: usize, len: usize, room: usize) -> bool
    ensures { result ≡ lacks_room at len room }
{
    if at < len { len - at < room } else { 0 < room }
}

// Is a part from `used` to `end`, where it ends, too short to tell what line it begins?
pub fn is_open_end(used: usize, end: usize, len: usize) -> bool
    requires { used ≤ end }
    ensures { result ≡ open_end used end len }
{
    end == len && end - used < TOO_LONG
}

// Carries out the lines of a part of the script, from what is done of it on, until a line is refused, the part has no whole line any
// more, or fewer than `room` bytes of the lent buffer are free.
pub fn feed(run: Run, part: &[u8], out: &mut [u8], room: usize) -> Run
    requires sound { Sound run }
    requires used_in_bounds { run.used ≤ length part.now }
    ensures { Feeds part.now room run out.old result out.new }
{
    let mut r = run;
    while r.refused == 0 {
        r = plain_lines(r, part);
        if lacks_room(r.at, out.len(), room) {
            return r;
        }
        let end = line_end(part, r.used);
        if is_open_end(r.used, end, part.len()) {
            return r;
        }
        r = next_line(r, part, end, out, room);
    }
    r
}

// The state that a plan file starts with, or the refusal of the plan.
pub fn opened(plan: &[u8]) -> Result<State, Refused>
    ensures { Opened plan.now result }
{
    regulator::open(plan::read(plan)?)
}

// The header, or the refusal of a plan, and the run before the first line.
pub fn start(plan: &[u8], out: &mut [u8]) -> Run
    ensures { Started plan.now out.old result out.new }
{
    let mut text = Text { out, at: 0 };
    match opened(plan) {
        Ok(state) => {
            text::put_header(&mut text);
            Run {
                state,
                line: 1,
                refused: 0,
                used: 0,
                at: text.at,
            }
        }
        Err(e) => {
            let refused = e.fault.number();
            text::put_plan_refused(&mut text, refused, e.place);
            Run {
                state: regulator::no_state(),
                line: 1,
                refused,
                used: 0,
                at: text.at,
            }
        }
    }
}

// The last part of the script: its lines, and then the end of the run. Answers the bytes of text in the lent buffer.
pub fn finish(run: Run, part: &[u8], out: &mut [u8]) -> usize
    requires sound { Sound run }
    requires used_in_bounds { run.used ≤ length part.now }
    ensures { output out.new result ≡ put (output out.old run.at) (rest_text run (drop run.used part.now)) }
{
    let r = feed(run, part, out, 0);
    if r.refused != 0 {
        return r.at;
    }
    let mut text = Text { out, at: r.at };
    if r.used < part.len() {
        text::put_line_refused(&mut text, r.line, 41);
        return text.at;
    }
    text::put_open(&mut text, r.state.decided);
    text.at
}

// All that the replay prints, from the bytes of the plan file and of the script, to a lent buffer as far as it reaches. Answers how many
// bytes of the buffer are text.
pub fn replay(plan: &[u8], script: &[u8], out: &mut [u8]) -> usize
    ensures count { result ≡ min (length (replay_text plan.now script.now)) (length out.old) }
    ensures text { out.new ≡ holding (replay_text plan.now script.now) out.old }
{
    let r = start(plan, out);
    finish(r, script, out)
}
