// Text put into a lent buffer, and cut off where the buffer ends.
ghost use Rattle.std.specs.Prelude.{◌<◌};

// The buffer, and the place from which on text is put.
#[derive(Drop)]
pub struct Text<'a> {
    out: &'a mut [u8],
    at: usize,
}

impl<'a> Text<'a> {
    pub fn from(out: &'a mut [u8], at: usize) -> Text<'a> {
        Text { out, at }
    }

    // The place behind the text.
    pub fn end(&self) -> usize {
        self.at
    }

    pub fn byte(&mut self, b: u8) {
        if self.at < self.out.len() {
            self.out[self.at] = b;
            self.at += 1;
        }
    }

    pub fn text(&mut self, text: &[u8]) {
        for &b in text {
            self.byte(b);
        }
    }

    // The digit of a number at a power of ten; none before the first digit.
    fn digit(&mut self, x: u64, power: u64)
        requires { 0 < power }
    {
        if power <= x {
            self.byte((x / power % 10) as u8 + b'0');
        }
    }

    fn digits(&mut self, x: u64) {
        let mut power: u64 = 10000000000000000000;
        // The power of ten falls: no index is counted.
        while power > 0 {
            self.digit(x, power);
            power /= 10;
        }
    }

    // A number, from the highest power of ten down.
    pub fn number(&mut self, x: u64) {
        if x == 0 {
            self.byte(b'0');
        } else {
            self.digits(x);
        }
    }

    // A text, and a number behind it.
    pub fn field(&mut self, text: &[u8], x: u64) {
        self.text(text);
        self.number(x);
    }
}
