// The chain of a file, asked anew from record 0 for each question. The answers count where the file is accepted. Positions and
// records stay numbers, 0 for none: the tests compare them and count by them.
ghost use Rattle.std.specs.Prelude.{◌≤◌};

pub use model_plans::chain::{meets, nth};
use model_plans::record;

// How many records are on the chain.
pub fn records(file: &[u8]) -> u32 {
    let s = model_plans::sums(file);
    s.records
}

// The position on the chain, from 1 on, of the domain of this number; 0 for none.
pub fn position(file: &[u8], number: u64) -> u32 {
    let most = records(file);
    (1..=most)
        .find(|&k| u64::from(record::byte(file, nth(file, k), 2)) == number)
        .unwrap_or(0)
}

// Whether a record is there, and the chain does not meet it.
fn is_free(file: &[u8], most: u32, index: u32) -> bool {
    record::exists(file, index) && !meets(file, most, index)
}

// The highest record from 1 up that is free; 0 for none.
pub fn highest_free(file: &[u8]) -> u32
    ensures { result ≤ 63 }
{
    let most = records(file);
    for index in (1..64).rev() {
        if is_free(file, most, index) {
            return index;
        }
    }
    0
}
