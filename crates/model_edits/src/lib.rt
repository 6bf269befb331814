// A second implementation of the edits of a plan file, made plain and slow to compare the library with: what an edit leaves is
// told byte by byte from a copy of the file as it was.
#![tactic(auto)]

pub mod adding;
mod after;
pub mod chain;
mod rescuing;

use after::Edit;
use model_plans::{Answer, Refusal, record};

// The domain to add.
#[derive(Clone, Copy)]
pub struct Wanted {
    pub number: u64,
    pub q: u64,
    pub r: u64,
    pub w: u64,
    pub v: u64,
    pub mark: bool,
}

// What an edit tells: the refusal, or 0, its place, and how many records a rescue left on the chain, 0 for the other edits. The
// refusal stays the document's number: the tests compare and count it as a number.
#[derive(Clone, Copy)]
pub struct Told {
    pub number: u32,
    pub place: u32,
    pub kept: u32,
}

fn accepted(a: Answer) -> Result<(), Refusal> {
    match a.number {
        0 => Ok(()),
        number => Err(Refusal {
            number,
            place: a.place,
        }),
    }
}

// The refusal of reading, or else that of the edit, whose place is 0.
fn drop_edit(file: &[u8], number: u64) -> Result<Edit, Refusal> {
    accepted(model_plans::read(file))?;
    match chain::position(file, number) {
        0 => Err(Refusal::from(72)),
        k => Ok(Edit::Drop {
            one: chain::nth(file, k),
            linked: chain::nth(file, k - 1),
        }),
    }
}

fn add_edit(file: &[u8], domain: Wanted) -> Result<Edit, Refusal> {
    let a = model_plans::read(file);
    accepted(a)?;
    let one = chain::highest_free(file);
    adding::check(a, domain, one)?;
    let linked = chain::nth(file, chain::records(file));
    Ok(Edit::Add {
        one,
        linked,
        domain,
    })
}

fn compact_edit(file: &[u8]) -> Result<Edit, Refusal> {
    accepted(model_plans::read_with_leftovers(file))?;
    let records = chain::records(file);
    Ok(Edit::Compact { records })
}

// What 1 to 3 refuse is kept. Of any other file the chain ends where the walk stops, and then before the records that fall.
fn rescue_edit(file: &[u8]) -> Result<Edit, Refusal> {
    record::opening(file)?;
    let records = rescuing::kept(file);
    let linked = chain::nth(file, records);
    Ok(Edit::Rescue { linked, records })
}

// Makes an edit that is not refused, and tells its outcome.
fn made(file: &mut [u8], edit: Result<Edit, Refusal>) -> Told {
    match edit {
        Ok(edit) => {
            after::rebuild(file, edit);
            Told {
                number: 0,
                place: 0,
                kept: edit.kept(),
            }
        }
        Err(Refusal { number, place }) => Told {
            number,
            place,
            kept: 0,
        },
    }
}

pub fn drop_domain(file: &mut [u8], number: u64) -> Told {
    let edit = drop_edit(file, number);
    made(file, edit)
}

pub fn add_domain(file: &mut [u8], d: Wanted) -> Told {
    let edit = add_edit(file, d);
    made(file, edit)
}

pub fn compact(file: &mut [u8]) -> Told {
    let edit = compact_edit(file);
    made(file, edit)
}

pub fn rescue(file: &mut [u8]) -> Told {
    let edit = rescue_edit(file);
    made(file, edit)
}
