// Sums and differences of 32-bit signed numbers that say where they leave 32 bits, and two's complement words.
#![tactic(auto)]

ghost use Rattle.std.specs.Prelude.{◌≡◌};
ghost use Rattle.signed.specs.Signed.{checked_sum, checked_difference, word_of, signed_of};

#[tactic(auto, unfolding(crate::specs::Signed::checked_of))]
pub fn checked_add(a: i32, b: i32) -> Option<i32>
    ensures { result ≡ checked_sum a b }
{
    a.checked_add(b)
}

#[tactic(auto, unfolding(crate::specs::Signed::checked_of))]
pub fn checked_sub(a: i32, b: i32) -> Option<i32>
    ensures { result ≡ checked_difference a b }
{
    a.checked_sub(b)
}

// The two's complement word.
#[tactic(auto, unfolding(crate::specs::Signed::word_of))]
pub fn to_word(x: i32) -> u32
    ensures { result ≡ word_of 32 x }
{
    x.cast_unsigned()
}

// The number whose two's complement word this is.
#[tactic(auto, unfolding(crate::specs::Signed::signed_of))]
pub fn from_word(w: u32) -> i32
    ensures { result ≡ signed_of 32 w }
{
    w.cast_signed()
}
