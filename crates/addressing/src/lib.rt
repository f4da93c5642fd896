// Where operands lie, and what they are, without the machine state.
#![tactic(auto)]

pub mod mem_ops;
pub mod select;

use u256::U256;

// The kinds of memory; cast to its number where a location is written: a `From` would hold that cast and no more.
#[derive(Clone, Copy, Debug, PartialEq, Eq)]
pub enum MemoryType {
    Stack = 1,
    Code,
}

// No location, or a memory kind (1 stack, 2 code), an index, a page and a time. The narrow fields first, so that they fill 12 bytes: a hole slows each copy down, and
// so do 16 bytes (docs/SPEED.md). The paper names this form, and no `Option` of a struct; the kind is a number, since a state with any number has to
// be answered.
#[derive(Clone, Copy)]
pub enum Location {
    None,
    At {
        memory_type: u8,
        index: u16,
        page: u32,
        time: u32,
    },
}

#[derive(Clone, Copy)]
pub struct PrimitiveValue {
    pub value: U256,
    pub is_pointer: bool,
}

// The operands of an instruction, after the swap.
#[derive(Clone, Copy)]
pub struct Sources {
    pub src0: PrimitiveValue,
    pub src1: PrimitiveValue,
}

// A location, and sp after it.
#[derive(Clone, Copy)]
pub struct Located {
    pub location: Location,
    pub sp: u16,
}

// Where the source is read and the destination is to be written, and sp after both.
#[derive(Clone, Copy)]
pub struct Places {
    pub source: Location,
    pub destination: Location,
    pub sp: u16,
}
