// A line of the text that states cases: its letter, and what stands at an offset of it.
ghost use Rattle.std.specs.Prelude.{◌<◌};

use std::array;
use trial_kit::lines;

// The line that begins at a place of a text.
#[derive(Clone, Copy)]
pub struct Line<'a> {
    pub text: &'a [u8],
    pub at: usize,
}

impl Line<'_> {
    // The byte at an offset.
    pub fn byte(self, offset: usize) -> u8 {
        lines::byte(self.text, self.at.wrapping_add(offset))
    }

    // The first byte, which tells what the line is.
    pub fn letter(self) -> u8 {
        self.byte(0)
    }

    // A number of so many digits, of at most 64 bits or cut to sixteen, and a row or column of two digits.
    pub fn number(self, offset: usize, digits: usize) -> u64 {
        lines::number(self.text, self.at, offset, digits)
    }

    pub fn small(self, offset: usize, digits: usize) -> u32
        ensures { result < 65536 }
    {
        lines::small(self.text, self.at, offset, digits)
    }

    pub fn index(self, offset: usize) -> usize
        ensures { result < 65536 }
    {
        self.small(offset, 2) as usize
    }

    // A number of as many digits as stand there.
    pub fn figure(self, offset: usize) -> u64 {
        lines::figure(self.text, self.at, offset)
    }

    // The bits of a float.
    pub fn bits(self, offset: usize) -> u64 {
        lines::bits(self.text, self.at, offset)
    }

    // Seventeen digits as bytes, and a byte behind them.
    pub fn digits(self, offset: usize, behind: u8) -> [u8; 18] {
        let from = self.at.wrapping_add(offset);
        array::from_fn(|k| if k < 17 {
            lines::digit(self.text, from, k)
        } else {
            behind
        })
    }
}
