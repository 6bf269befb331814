// Text that goes to a lent buffer, as far as it reaches.
ghost use Rattle.std.specs.Prelude.{[], ◌∷◌};
ghost use Rattle.script.specs.Text.{decimal, field};
ghost use Rattle.script.specs.Output.{Puts};

// A lent buffer, and how many bytes of it are text. Where it is full, no more goes in.
#[derive(Drop)]
pub struct Text<'a> {
    pub out: &'a mut [u8],
    pub at: usize,
}

impl<'a> Text<'a> {
    pub fn put_byte(&mut self, b: u8)
        ensures { Puts self.old self.new (b ∷ []) }
    {
        if self.at < self.out.len() {
            self.out[self.at] = b;
            self.at += 1;
        }
    }

    pub fn put_bytes(&mut self, bytes: &[u8])
        ensures { Puts self.old self.new bytes.now }
    {
        for &b in bytes {
            self.put_byte(b);
        }
    }

    // A number in decimal digits. Most are below 10.
    pub fn put_number(&mut self, n: u64)
        ensures { Puts self.old self.new (decimal n) }
    {
        if n < 10 {
            self.put_byte(b'0' + n as u8);
            return;
        }
        let mut digits = [0u8; 20];
        let k = io::decimal(n, &mut digits);
        self.put_bytes(&digits[..k]);
    }

    // A number behind a byte.
    pub fn put_field(&mut self, mark: u8, n: u64)
        ensures { Puts self.old self.new (field mark n) }
    {
        self.put_byte(mark);
        self.put_number(n);
    }
}
