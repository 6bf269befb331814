// Floats as words: the kind, 1 for a number and 2 for a NaN, whose bits nobody fixes, and the bits of a number.
pub const NUMBER: u64 = 1;

pub const NAN: u64 = 2;

// The kind stays a number: it is a word of the state, which the test programs compare.
#[derive(Clone, Copy)]
pub struct Sorted {
    pub kind: u64,
    pub bits: u64,
}

pub fn bits_of(x: f64) -> Sorted {
    if x.is_nan() {
        return Sorted { kind: NAN, bits: 0 };
    }
    Sorted {
        kind: NUMBER,
        bits: x.to_bits(),
    }
}

// The float of any bits: a NaN's have the exponent's field all ones, and some digit behind it.
pub fn float_of(bits: u64) -> f64 {
    if bits % 9223372036854775808 / 4503599627370496 < 2047 {
        return f64::from_bits(bits);
    }
    // Two tests: behind `||` the proof does not see that no such bits are a NaN's.
    if bits % 4503599627370496 == 0 {
        return f64::from_bits(bits);
    }
    f64::NAN
}
