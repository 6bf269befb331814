// Bytes and numbers of the records of a plan file, and what is refused before a chain is followed.
ghost use Rattle.std.specs.Prelude.{◌<◌, ◌≤◌};

// A byte of a record; one that the file does not have reads as 0.
pub fn byte(file: &[u8], record: u32, offset: u32) -> u32
    requires { offset < 16 }
    ensures { result < 256 }
{
    if record >= 64 {
        return 0;
    }
    file.get((16 * record + offset) as usize)
        .map_or(0, |&b| u32::from(b))
}

// A number of two bytes, the low byte first.
pub fn number(file: &[u8], record: u32, offset: u32) -> u32
    requires { offset < 15 }
    ensures { result < 65536 }
{
    byte(file, record, offset) + 256 * byte(file, record, offset + 1)
}

// The index that a record names: the first domain record in record 0, the next one in a domain record.
pub fn link(file: &[u8], record: u32) -> u32
    ensures { result < 65536 }
{
    if record == 0 {
        number(file, 0, 2)
    } else {
        number(file, record, 0)
    }
}

// Whether the file has the record whole.
pub fn exists(file: &[u8], record: u32) -> bool {
    record < 64 && (16 * record + 16) as usize <= file.len()
}

// Whether the bytes of a record from one offset to before another are all zero.
pub fn zeros(file: &[u8], record: u32, from: u32, to: u32) -> bool
    requires { (from ≤ to) × (to ≤ 16) }
{
    (from..to).all(|offset| byte(file, record, offset) == 0)
}

// The period that record 0 tells, or the refusal of the file's length or of record 0: 1, 2 or 3.
pub fn opening(file: &[u8]) -> Result<u32, u32> {
    if file.is_empty() || file.len() % 16 != 0 || file.len() > 1024 {
        return Err(1);
    }
    let period = number(file, 0, 0);
    if period == 0 || period > 4096 {
        return Err(2);
    }
    if zeros(file, 0, 4, 16) {
        Ok(period)
    } else {
        Err(3)
    }
}
