// The file that an edit leaves, byte by byte.
ghost use Rattle.std.specs.Prelude.{◌<◌, MatchOption, ⊤};

use super::{Wanted, chain};
use model_plans::record;

// An edit that is not refused.
#[derive(Clone, Copy)]
pub enum Edit {
    // The record dropped, and the one before it on the chain.
    Drop {
        one: u32,
        linked: u32,
    },
    // The record taken, the last of the chain, and the domain added.
    Add {
        one: u32,
        linked: u32,
        domain: Wanted,
    },
    // How many records are on the chain.
    Compact {
        records: u32,
    },
    // The last of the records that are left on the chain, and how many these are.
    Rescue {
        linked: u32,
        records: u32,
    },
}

impl Edit {
    // How many records a rescue leaves on the chain; 0 for the other edits.
    pub fn kept(self) -> u32 {
        match self {
            Edit::Rescue { records, .. } => records,
            _ => 0,
        }
    }
}

// A byte of a record.
#[derive(Clone, Copy)]
struct Place {
    index: u32,
    offset: u32,
    ghost inside: { (index < 64) × (offset < 16) },
}

// Which byte of its record's link a byte is, 0 the low one and 1 the high one.
fn link_byte(at: Place) -> Option<u32>
    ensures { MatchOption result ⊤ (λ which. which < 2) }
{
    match (at.index, at.offset) {
        (0, 2) => Some(0),
        (0, 3) => Some(1),
        (0, _) => None,
        (_, 0) => Some(0),
        (_, 1) => Some(1),
        _ => None,
    }
}

// A byte of a number of two, the low byte first.
fn half(x: u64, which: u32) -> u32
    requires { which < 2 }
{
    u32::from(x.to_le_bytes()[which as usize])
}

// A byte of the record of a domain that is last on the chain.
fn domain_byte(d: Wanted, offset: u32) -> u32 {
    let which = offset % 2;
    match offset {
        2 => half(d.number, 0),
        3 => u32::from(d.mark),
        4 | 5 => half(d.q, which),
        6 | 7 => half(d.r, which),
        8 | 9 => half(d.w, which),
        10 | 11 => half(d.v, which),
        _ => 0,
    }
}

fn dropped(old: &[u8], one: u32, linked: u32, at: Place) -> u32 {
    if at.index == one {
        return 0;
    }
    match link_byte(at) {
        Some(which) if at.index == linked => record::byte(old, one, which),
        _ => record::byte(old, at.index, at.offset),
    }
}

fn added(old: &[u8], one: u32, linked: u32, domain: Wanted, at: Place) -> u32 {
    if at.index == one {
        return domain_byte(domain, at.offset);
    }
    match link_byte(at) {
        Some(0) if at.index == linked => one,
        Some(_) if at.index == linked => 0,
        _ => record::byte(old, at.index, at.offset),
    }
}

// Record n is the n-th of the chain, and names record n + 1, but for the last.
fn compacted(old: &[u8], records: u32, at: Place) -> u32 {
    if at.index > records {
        return 0;
    }
    match link_byte(at) {
        Some(0) if at.index < records => at.index + 1,
        Some(_) => 0,
        None => record::byte(old, chain::nth(old, at.index), at.offset),
    }
}

// Record 0 and the records left on the chain stay, but for the link of the last of them, which names none; all others are
// zeroed.
fn rescued(old: &[u8], linked: u32, records: u32, at: Place) -> u32 {
    let unlinked = at.index == linked && link_byte(at).is_some();
    let stays = at.index == 0 || chain::meets(old, records, at.index);
    if stays && !unlinked {
        record::byte(old, at.index, at.offset)
    } else {
        0
    }
}

fn due(old: &[u8], edit: Edit, at: Place) -> u32 {
    match edit {
        Edit::Drop { one, linked } => dropped(old, one, linked, at),
        Edit::Add {
            one,
            linked,
            domain,
        } => added(old, one, linked, domain, at),
        Edit::Compact { records } => compacted(old, records, at),
        Edit::Rescue { linked, records } => rescued(old, linked, records, at),
    }
}

// The bytes of a file as they are, and zeros behind.
fn copied(file: &[u8]) -> [u8; 1024] {
    let mut copy = [0u8; 1024];
    let bytes = file.len().min(1024);
    copy[..bytes].copy_from_slice(&file[..bytes]);
    copy
}

// Puts every byte of the file, of at most 1,024, to what it is due to be.
pub fn rebuild(file: &mut [u8], edit: Edit) {
    let old = copied(file);
    for k in 0u32..1024 {
        let at = Place {
            index: k / 16,
            offset: k % 16,
        };
        if let Some(byte) = file.get_mut(k as usize) {
            *byte = (due(&old, edit, at) % 256) as u8;
        }
    }
}
