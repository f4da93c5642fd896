// The parts of a pc, and the 64 bits of a code word that it points at.
ghost use Rattle.std.specs.Prelude.{◌≡◌};
ghost use Rattle.u256.specs.U256.{value_of};
ghost use Rattle.decoding.specs.Code.{super_pc, sub_pc, code_changed, code_bits, parts_in_turn};

use u256::U256;

pub fn super_pc(pc: u16) -> u16
    ensures { result ≡ super_pc pc }
{
    pc / 4
}

pub fn sub_pc(pc: u16) -> u16
    ensures { result ≡ sub_pc pc }
{
    pc % 4
}

// A case for each sub pc. One above 3, which no pc has, is taken as 3.
#[tactic(auto, unfolding(crate::specs::Code::code_bits))]
pub fn code_bits(word: U256, sub_pc: u16) -> u64
    ensures { result ≡ code_bits word sub_pc }
{
    match sub_pc {
        // sub pc 0: bits 192 to 255, the highest
        0 => word.w3,
        // sub pc 1: bits 128 to 191
        1 => word.w2,
        // sub pc 2: bits 64 to 127
        2 => word.w1,
        // sub pc 3: bits 0 to 63, the lowest
        _ => word.w0,
    }
}

// Sub pc 0 to 3 in turn, highest first, give the whole word.
#[tactic(auto, unfolding(crate::specs::Code::code_bits, crate::specs::Code::parts_in_turn))]
pub fn whole_word(word: U256) -> U256
    ensures { (result ≡ word) × (parts_in_turn word ≡ value_of word) }
{
    U256 {
        w3: code_bits(word, 0),
        w2: code_bits(word, 1),
        w1: code_bits(word, 2),
        w0: code_bits(word, 3),
    }
}

// Whether the code word is another one than that of the cycle before.
pub fn code_changed(page: u32, previous_page: u32, super_pc: u16, previous_super_pc: u16) -> bool
    ensures { result ≡ code_changed page previous_page super_pc previous_super_pc }
{
    (page != previous_page) | (super_pc != previous_super_pc)
}
