// Writing a plan: its domains in ascending number at records 1, 2, .., each naming the next.
ghost use Rattle.std.specs.Prelude.{◌≡◌, ◌++◌, ◌+◌, ◌*◌, ◌<◌, ◌≤◌, length, drop};
ghost use Rattle.plan.specs.Writing.{next_index, record_of, records_from, Lists, write_plan, written, writing_by};

use crate::refusal::{Fault, Refused};
use crate::value::{Domain, Plan};
use crate::{records, value};

// The domains of a plan, one after the other: the first `count` of the sixteen.
#[derive(Clone, Copy)]
pub struct Listed {
    pub count: usize,
    pub domains: [Domain; 16],
}

// The planned domains in ascending number.
fn list_domains(p: Plan) -> Listed
    ensures { Lists p 16 result.count result.domains }
{
    // An array whose places behind the count hold no domain: there is no heap here to keep a Vec.
    let none = Domain {
        number: 0,
        reservation: 0,
        reclaimcap: 0,
        writebackcap: 0,
        writebackreservation: 0,
        marked: false,
    };
    let mut domains = [none; 16];
    let mut count = 0;
    for j in 0..16 {
        if !p.planned[j] {
            continue;
        }
        domains[count] = Domain {
            number: (j + 1) as u8,
            reservation: p.reservation[j],
            reclaimcap: p.reclaimcap[j],
            writebackcap: p.writebackcap[j],
            writebackreservation: p.writebackreservation[j],
            marked: p.marked[j],
        };
        count += 1;
    }
    Listed { count, domains }
}

// The index that record k names, of a chain of n domains.
pub fn next_index(n: usize, k: usize) -> u16
    requires { k ≤ 64 }
    ensures { result ≡ next_index n k }
{
    if k < n { (k + 1) as u16 } else { 0 }
}

// The bytes of record k of a plan file.
fn record_bytes(period: u16, l: Listed, k: usize) -> [u8; 16]
    requires { (k ≤ l.count) × (l.count ≤ 16) }
    ensures { result ≡ record_of period l.count l.domains k }
{
    let next = next_index(l.count, k);
    if k == 0 {
        return records::head_record(period, next);
    }
    let j = k - 1;
    records::domain_record(next, l.domains[j])
}

// The records of a plan file, from record 0 on. Each goes through the part of the buffer that it fills.
fn put_records(buffer: &mut [u8], period: u16, l: Listed)
    requires { (l.count ≤ 16) × (16 * (l.count + 1) ≤ length buffer.old) }
    ensures { buffer.new ≡ records_from (record_of period l.count l.domains) 0 (l.count + 1) ++ drop (16 * (l.count + 1)) buffer.old }
{
    for k in 0..l.count + 1 {
        let bytes = record_bytes(period, l, k);
        let at = 16 * k;
        records::put_record(&mut buffer[at..at + 16], bytes);
    }
}

// Writes the file of a plan to the start of a lent buffer, and counts its bytes. A refusal writes nothing.
pub fn write(p: Plan, buffer: &mut [u8]) -> Result<usize, Refused>
    ensures value { writing_by result ≡ write_plan p (length buffer.old) }
    ensures buffer_after { buffer.new ≡ written p buffer.old }
{
    value::check(p)?;
    let l = list_domains(p);
    let need = 16 * (l.count + 1);
    if buffer.len() < need {
        return Err(Refused {
            fault: Fault::Room,
            place: 0,
        });
    }
    put_records(buffer, p.period, l);
    Ok(need)
}
