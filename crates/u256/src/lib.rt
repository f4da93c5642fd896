// 256-bit values: sum, difference, the test for zero, the lowest bits, a 64-bit number as one, the empty word, and the choice of one of two.
#![tactic(auto)]

ghost use Rattle.std.specs.Prelude.{◌≡◌, cond};
ghost use Rattle.u256.specs.U256.{overflowing_sum, overflowing_difference, is_zero, low_of, one_word, empty_word};

// Four 64-bit words, the lowest first.
#[derive(Clone, Copy, Debug, Default, PartialEq, Eq)]
pub struct U256 {
    pub w0: u64,
    pub w1: u64,
    pub w2: u64,
    pub w3: u64,
}

impl U256 {
    // Sum and difference are alike but for the step of a word: the step as a closure would have to be given with its contract, and is no plainer.
    #[tactic(auto, unfolding(crate::specs::U256::overflowing_sum))]
    pub fn overflowing_add(self, other: U256) -> (U256, bool)
        ensures { result ≡ overflowing_sum self other }
    {
        let (w0, carry) = self.w0.carrying_add(other.w0, false);
        let (w1, carry) = self.w1.carrying_add(other.w1, carry);
        let (w2, carry) = self.w2.carrying_add(other.w2, carry);
        let (w3, overflow) = self.w3.carrying_add(other.w3, carry);
        (U256 { w0, w1, w2, w3 }, overflow)
    }

    #[tactic(auto, unfolding(crate::specs::U256::overflowing_difference))]
    pub fn overflowing_sub(self, other: U256) -> (U256, bool)
        ensures { result ≡ overflowing_difference self other }
    {
        let (w0, borrow) = self.w0.borrowing_sub(other.w0, false);
        let (w1, borrow) = self.w1.borrowing_sub(other.w1, borrow);
        let (w2, borrow) = self.w2.borrowing_sub(other.w2, borrow);
        let (w3, overflow) = self.w3.borrowing_sub(other.w3, borrow);
        (U256 { w0, w1, w2, w3 }, overflow)
    }

    #[tactic(auto, unfolding(crate::specs::U256::is_zero))]
    pub fn is_zero(self) -> bool
        ensures { result ≡ is_zero self }
    {
        self == empty_word()
    }

    // A function for each width, named by it: a trait, as the benchmarks have for nineteen fields, would name it in the type at each call. The casts keep the low bits,
    // which no `From` does.
    #[tactic(auto, unfolding(crate::specs::U256::low_of))]
    pub fn low_u16(self) -> u16
        ensures { result ≡ low_of 16 self }
    {
        (self.w0 % 0x1_0000) as u16
    }

    #[tactic(auto, unfolding(crate::specs::U256::low_of))]
    pub fn low_u32(self) -> u32
        ensures { result ≡ low_of 32 self }
    {
        (self.w0 % 0x1_0000_0000) as u32
    }
}

impl From<u64> for U256 {
    ghost from_gives = { λ n v. v ≡ one_word n };

    fn from(n: u64) -> U256 {
        U256 {
            w0: n,
            w1: 0,
            w2: 0,
            w3: 0,
        }
    }
}

pub fn empty_word() -> U256
    ensures { result ≡ empty_word }
{
    U256::default()
}

// No crate here calls it: it stays since it was promised. Not one function with decoding's `either`, which copies a record field by field.
pub fn either_word(first: bool, a: U256, b: U256) -> U256
    ensures { result ≡ cond first a b }
{
    if first { a } else { b }
}
