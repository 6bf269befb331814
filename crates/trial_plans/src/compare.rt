// The library and the model on one file, or on one plan held as a value and a lent buffer.
ghost use Rattle.std.specs.Prelude.{◌<◌};

use model_plans::{Answer, Sums, Told};
use plan::{Plan, Refused};
use trial_kit::tally::Verdict;
use trial_kit::{bytes, values};

// The bytes of the buffers that plans are written to.
pub const BUFFER: u32 = 320;

// A plan that is accepted, in the model's form.
fn accepted(p: Plan) -> Answer {
    let domains = values::words(p);
    Answer {
        number: 0,
        place: 0,
        period: u32::from(p.period),
        domains,
    }
}

// A refusal in the model's form.
fn refused(number: u32, place: u32) -> Answer {
    Answer {
        number,
        place,
        period: 0,
        domains: [0; 96],
    }
}

// A reading of the library's in the model's form.
fn answer(r: Result<Plan, Refused>) -> Answer {
    match r {
        Ok(p) => accepted(p),
        Err(e) => refused(u32::from(e.fault.number()), u32::from(e.place)),
    }
}

// The bytes written, or the refusal, in the model's form.
fn told(w: Result<usize, Refused>) -> Told {
    match w {
        Ok(bytes) => Told {
            number: 0,
            place: 0,
            bytes: u32::try_from(bytes).unwrap_or(u32::MAX),
        },
        Err(e) => Told {
            number: u32::from(e.fault.number()),
            place: u32::from(e.place),
            bytes: 0,
        },
    }
}

// The sums that the library's walk tells, in the model's form.
fn sums(file: &[u8]) -> Sums {
    let s = plan::sums_told(file);
    let told = s.told;
    Sums {
        records: u32::try_from(s.records).unwrap_or(u32::MAX),
        told,
    }
}

// What reading back a plan that was written has to answer: the plan, or the refusal of writing.
fn due(t: Told, p: Plan) -> Answer {
    if t.number == 0 {
        accepted(p)
    } else {
        refused(t.number, t.place)
    }
}

// Writes a plan over the first bytes of a file, and answers the records written.
pub fn write_over(file: &mut [u8], p: Plan) -> u32
    ensures { result < 64 }
{
    (plan::write(p, file).unwrap_or(0) / 16 % 64) as u32
}

fn filled(seed: u32) -> [u8; 320] {
    let mut buffer = [0u8; 320];
    bytes::fill(&mut buffer, BUFFER, seed, bytes::Kind::Any);
    buffer
}

fn same_check(p: Plan) -> bool {
    let m = model_plans::check(u32::from(p.period), values::words(p));
    told(plan::check(p).map(|()| 0)) == m
}

// A plan held as a value: checked, written and read back, into equal buffers of which so many bytes are lent.
pub fn value(p: Plan, size: u32, seed: u32) -> Verdict {
    let lent = size.min(BUFFER) as usize;
    let mut written = filled(seed);
    let mut returned = filled(seed);
    let mut model = filled(seed);
    let w = plan::write(p, &mut written[..lent]);
    let r = plan::write_and_read(p, &mut returned[..lent]);
    let t = model_plans::write(u32::from(p.period), values::words(p), &mut model[..lent]);
    let back = t.number != 0
        || model_plans::read(&written[..t.bytes.min(BUFFER) as usize]) == due(t, p);
    let same_buffers = written == model && returned == model;
    Verdict {
        number: t.number,
        same: same_check(p) && told(w) == t && answer(r) == due(t, p) && same_buffers && back,
    }
}

// A file: read by both rules and walked, and where the earlier rule takes it, the plan written and read back. Whether the model
// answers as is stated or known of the file stands beside.
pub fn file(file: &[u8], seed: u32, holds: bool) -> Verdict {
    let read = model_plans::read(file);
    let earlier = plan::read_with_leftovers(file);
    let readings = answer(plan::read(file)) == read
        && answer(earlier) == model_plans::read_with_leftovers(file);
    let back = earlier.map_or(true, |p| value(p, BUFFER, seed).same);
    Verdict {
        number: read.number,
        same: holds && readings && sums(file) == model_plans::sums(file) && back,
    }
}
