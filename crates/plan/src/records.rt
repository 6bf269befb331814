// Records of a plan file: what the sixteen bytes of one hold, read and written.
ghost use Rattle.std.specs.Prelude.{◌≡◌, ◌+◌, ◌*◌, ◌<◌, ◌≤◌, length};
ghost use Rattle.plan.specs.Records.{u16_at, zeros, record_at, domain_in, head_record, domain_record};

use crate::value::Domain;

// A number of two bytes, unsigned, little-endian.
pub fn u16_at(s: &[u8], at: usize) -> u16
    requires { at + 1 < length s.now }
    ensures { result ≡ u16_at s.now at }
{
    u16::from_le_bytes([s[at], s[at + 1]])
}

// Is every byte zero?
pub(crate) fn all_zero(s: &[u8]) -> bool
    ensures { result ≡ zeros s.now }
{
    s.iter().all(|&b| b == 0)
}

// The sixteen bytes of record i.
pub fn record_part(file: &[u8], i: usize) -> &[u8]
    requires { 16 * i + 16 ≤ length file.now }
    ensures { (result.now ≡ record_at file.now i) × (length result.now ≡ 16) }
{
    let at = 16 * i;
    &file[at..at + 16]
}

// The domain that a record states. (Its length is required, as in chain.rt.)
pub(crate) fn domain_in(b: &[u8]) -> Domain
    requires { length b.now ≡ 16 }
    ensures { result ≡ domain_in b.now }
{
    Domain {
        number: b[2],
        reservation: u16_at(b, 4),
        reclaimcap: u16_at(b, 6),
        writebackcap: u16_at(b, 8),
        writebackreservation: u16_at(b, 10),
        marked: b[3] == 1,
    }
}

// The bytes of record 0.
pub(crate) fn head_record(period: u16, first: u16) -> [u8; 16]
    ensures { result ≡ head_record period first }
{
    let p = period.to_le_bytes();
    let f = first.to_le_bytes();
    [p[0], p[1], f[0], f[1], 0, 0, 0, 0, 0, 0, 0, 0, 0, 0, 0, 0]
}

// The bytes of a domain's record.
pub fn domain_record(next: u16, d: Domain) -> [u8; 16]
    ensures { result ≡ domain_record next d }
{
    let n = next.to_le_bytes();
    let q = d.reservation.to_le_bytes();
    let r = d.reclaimcap.to_le_bytes();
    let w = d.writebackcap.to_le_bytes();
    let v = d.writebackreservation.to_le_bytes();
    [
        n[0],
        n[1],
        d.number,
        u8::from(d.marked),
        q[0],
        q[1],
        r[0],
        r[1],
        w[0],
        w[1],
        v[0],
        v[1],
        0,
        0,
        0,
        0,
    ]
}

// A record, written to a lent part of sixteen bytes.
pub fn put_record(b: &mut [u8], bytes: [u8; 16])
    requires { length b.old ≡ 16 }
    ensures { b.new ≡ bytes }
{
    b.copy_from_slice(&bytes);
}
