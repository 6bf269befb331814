// A call with its arguments other than the state, and other than the plan at hand, which lies behind the state's words.

// What a call is.
#[derive(Clone, Copy, Debug, PartialEq, Eq)]
pub enum Asks {
    Slot,
    Yield,
    HandIn,
    Open,
}

// A slot call has so many of the offers, and so many bytes lent, which hold `filled` before, and in `domain` the number whose
// verdict is to be explained; a yield has a domain and k.
#[derive(Clone, Copy)]
pub struct Call {
    pub asks: Asks,
    pub offers: [u8; 18],
    pub offered: usize,
    pub lent: usize,
    pub filled: u8,
    pub domain: u64,
    pub k: u64,
}

// Opening the plan at hand.
pub fn opening() -> Call {
    Call {
        asks: Asks::Open,
        offers: [0; 18],
        offered: 17,
        lent: 17,
        filled: 0,
        domain: 0,
        k: 0,
    }
}
