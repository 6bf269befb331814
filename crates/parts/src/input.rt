// Standard input, read part by part into one buffer.
ghost use Rattle.std.specs.Prelude.{◌≡◌, ◌↔◌, ◌-◌, ◌<◌, ◌≤◌, length, take, drop};
ghost use Rattle.std.specs.Io.KnownBytes.{Consumes, IsAtEnd};
ghost use Rattle.parts.specs.Input.{Refilled};

use std::io::Read;

// What is behind a part: maybe more of the input, its end, or a place at which the system failed to read.
#[derive(Clone, Copy, Debug, PartialEq, Eq)]
pub enum Behind {
    More,
    End,
    Failure,
}

// The part in hand after a read: its bytes, and what is behind it.
#[derive(Clone, Copy)]
pub struct Part {
    pub filled: usize,
    pub behind: Behind,
}

// Keeps what is left of the part in hand, and reads more of the input behind it.
pub fn refill<R: Read>(input: &mut R, text: &mut [u8], used: usize, filled: usize) -> Part
    requires used_le_filled { used ≤ filled }
    requires filled_in_bounds { filled ≤ length text.old }
    ensures refilled { Refilled used filled text.old text.new result }
    ensures bytes { Consumes (R.remaining input.old) (R.remaining input.new) (drop (filled - used) (take result.filled text.new)) }
    ensures more { result.behind ≡ Behind.More ↔ filled - used < result.filled }
    ensures end { result.behind ≡ Behind.End → filled - used < length text.new → IsAtEnd (R.remaining input.new) }
{
    let left = filled - used;
    text.copy_within(used..filled, 0);
    match input.read(&mut text[left..]) {
        Ok(0) => Part {
            filled: left,
            behind: Behind::End,
        },
        Ok(n) => Part {
            filled: left + n,
            behind: Behind::More,
        },
        Err(_) => Part {
            filled: left,
            behind: Behind::Failure,
        },
    }
}
