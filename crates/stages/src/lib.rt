// The machine state, and the stages of a cycle as methods on it. Settings and the frame store are given with each call, as document 01 has it: any are answered.
#![tactic(auto)]

mod arithmetic;
mod decode;
mod execute;
mod fetch;
mod helpers;
mod near_call;
mod operands;
mod ret;

use addressing::{Location, PrimitiveValue};
use decoding::ErrorFlags;
use frame::{Frame, PubdataCost};
use records::{Flags, Record};
use refusal::Refusal;
use u256::U256;

// The stages of a cycle, in turn. Cast to its number where a state's stage is written or compared: a `From` would hold that cast and no more.
#[derive(Clone, Copy, Debug, PartialEq, Eq)]
pub enum Stage {
    Fetch,
    Decode,
    Operands,
    Execute,
}

// What decode and operands keep for the stages after them.
#[derive(Clone, Copy)]
pub struct Kept {
    pub instruction: Record,
    pub write: Location,
}

// The fields of the Rust's `VmLocalState` that the stages use, the current frame, and what one stage leaves to the next. A pointer bit
// beside its word, or a hole of 3, 5, 6 or 7 bytes, would slow each copy down; that of fetched_word does not (98.7 instructions for the listing's cycle, as before).
#[derive(Clone, Copy)]
pub struct State {
    pub registers: [U256; 15],
    pub current: Frame,
    pub previous_code_word: U256,
    // the word that fetch read, if it read one
    pub fetched_word: Option<U256>,
    pub kept: Kept,
    pub flags: Flags,
    pub previous_code_memory_page: u32,
    pub timestamp: u32,
    pub monotonic_cycle_counter: u32,
    pub depth: u32,
    pub pubdata_revert_counter: PubdataCost,
    pub previous_super_pc: u16,
    pub pointers: [bool; 15],
    // the number of the stage that comes next; a number, since a state with any other has to be answered too
    pub stage: u8,
    pub pending_exception: bool,
}

// 64 bits of code, or that an exception is pending, or that execution has ended.
#[derive(Clone, Copy)]
pub enum FetchAnswer {
    Code(u64),
    Exception,
    Nop,
}

#[derive(Clone, Copy)]
pub struct DecodeAnswer {
    pub charge: u32,
    pub errors: ErrorFlags,
}

#[derive(Clone, Copy)]
pub struct OperandsAnswer {
    pub source: Location,
    pub destination: Location,
}

// What is to be written to memory, where and when: as the kept location has it.
#[derive(Clone, Copy)]
pub struct Write {
    pub memory_type: u8,
    pub index: u16,
    pub page: u32,
    pub time: u32,
    pub value: PrimitiveValue,
}

// What happened to the frames: closed carries its panicked bit.
#[derive(Clone, Copy)]
pub enum Event {
    Opened,
    Closed(bool),
}

// What execute is given besides the settings and the store: the word read and its pointer bit, looked at only where operands gave a source location.
#[derive(Clone, Copy)]
pub struct ExecuteInput {
    pub word: U256,
    pub pointer: bool,
}

#[derive(Clone, Copy)]
pub struct ExecuteAnswer {
    pub write: Option<Write>,
    pub event: Option<Event>,
}

// A stage's state after it, and what it answers.
#[derive(Clone, Copy)]
pub struct Staged<A> {
    pub state: State,
    pub answer: Result<A, Refusal>,
}

pub type Fetched = Staged<FetchAnswer>;

pub type Decoded = Staged<DecodeAnswer>;

pub type Addressed = Staged<OperandsAnswer>;

pub type Executed = Staged<ExecuteAnswer>;
