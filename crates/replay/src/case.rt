// A case, from the numbers of a line: a state, the frame store, and what a cycle is given.
ghost use Rattle.std.specs.Prelude.{◌≤◌};

use crate::numbers::Numbers;
use cycle::{Cycled, Input};
use frame::{Frame, PubdataCost, ROW_WIDTH};
use records::{Flags, Record, Records, Settings};
use stages::{ExecuteInput, Executed, Stage, State};
use u256::U256;

// The greatest limit and depth that are served.
const MOST_ROWS: u32 = 16;

// The words of a store for them: nothing is allocated, so there is room for the greatest. Rows are cast here and in `words_of`,
// since `From` makes no usize of a u32.
pub(crate) const STORE: usize = MOST_ROWS as usize * ROW_WIDTH;

// The store is no part of it, but lent: where a case is handed on, its words would be copied, and room for them cleared, several times a line.
#[derive(Drop)]
pub(crate) struct Case {
    state: State,
    input: Input,
}

// The words of so many rows, at most those of a store.
pub(crate) fn words_of(rows: u32) -> usize
    ensures { result ≤ STORE }
{
    rows.min(MOST_ROWS) as usize * ROW_WIDTH
}

impl Case {
    // None where the line is no case. The store gets the case's rows; those past the depth are 0.
    pub(crate) fn of(line: &[u8], store: &mut [u32; STORE]) -> Option<Case> {
        let mut numbers = Numbers::of(line);
        let settings = settings(&mut numbers)?;
        let state = state(&mut numbers)?;
        *store = [0; STORE];
        for word in &mut store[..words_of(state.depth)] {
            *word = numbers.read()?;
        }
        let input = input(&mut numbers, settings)?;
        numbers.is_over().then_some(Case { state, input })
    }

    // As many as the limit.
    fn rows<'a>(&self, store: &'a mut [u32; STORE]) -> &'a mut [u32] {
        &mut store[..words_of(self.input.settings.depth_limit)]
    }

    // A whole cycle, from the state as it is: ready.
    pub(crate) fn cycle(&self, store: &mut [u32; STORE]) -> Cycled {
        cycle::cycle(self.state, self.input, self.rows(store))
    }

    // Execute alone, from the state in mid-cycle that keeps the plain record.
    pub(crate) fn execute(&self, store: &mut [u32; STORE]) -> Executed {
        let input = self.input;
        let mut state = self.state;
        state.kept.instruction = input.records.plain;
        state.stage = Stage::Execute as u8;
        state.execute(input.settings, self.rows(store), input.execute)
    }
}

// A limit or a depth.
fn rows(numbers: &mut Numbers) -> Option<u32> {
    numbers.read().filter(|rows| *rows <= MOST_ROWS)
}

fn settings(numbers: &mut Numbers) -> Option<Settings> {
    Some(Settings {
        depth_limit: rows(numbers)?,
        near_call_multiplier: numbers.read()?,
        time_step: numbers.read()?,
    })
}

fn flags(numbers: &mut Numbers) -> Option<Flags> {
    Some(Flags {
        overflow_or_less_than_flag: numbers.read_bit()?,
        equality_flag: numbers.read_bit()?,
        greater_than_flag: numbers.read_bit()?,
    })
}

// The current frame, where each of its words fits its field. Nothing is allocated, so its row is an array.
fn current(numbers: &mut Numbers) -> Option<Frame> {
    let mut row = [0u32; ROW_WIDTH];
    for word in &mut row {
        *word = numbers.read()?;
    }
    frame::read_frame(&row, 0).ok()
}

// A ready state.
fn state(numbers: &mut Numbers) -> Option<State> {
    let mut registers = [U256::default(); 15];
    let mut pointers = [false; 15];
    for (register, pointer) in registers.iter_mut().zip(&mut pointers) {
        *register = numbers.read_word()?;
        *pointer = numbers.read_bit()?;
    }
    Some(State {
        registers,
        pointers,
        flags: flags(numbers)?,
        timestamp: numbers.read()?,
        monotonic_cycle_counter: numbers.read()?,
        pending_exception: numbers.read_bit()?,
        previous_code_word: numbers.read_word()?,
        previous_code_memory_page: numbers.read()?,
        previous_super_pc: numbers.read()?,
        pubdata_revert_counter: PubdataCost(signed::from_word(numbers.read()?)),
        depth: rows(numbers)?,
        current: current(numbers)?,
        ..start::start_state(0, 0)
    })
}

// The benchmarks read a record from words, of which they cut what is too wide; here a number that is too wide makes the line unread,
// so that one reader cannot serve both.
fn record(numbers: &mut Numbers) -> Option<Record> {
    Some(Record {
        operation: numbers.read()?,
        return_kind: numbers.read()?,
        condition: numbers.read()?,
        source_kind: numbers.read()?,
        destination_kind: numbers.read()?,
        src0: numbers.read()?,
        src1: numbers.read()?,
        dst0: numbers.read()?,
        imm_0: numbers.read()?,
        imm_1: numbers.read()?,
        price: numbers.read()?,
        explicit_panic: numbers.read_bit()?,
        kernel_only: numbers.read_bit()?,
        allowed_when_static: numbers.read_bit()?,
        swap: numbers.read_bit()?,
        set_flags: numbers.read_bit()?,
        to_label: numbers.read_bit()?,
        src0_may_be_pointer: numbers.read_bit()?,
        src1_may_be_pointer: numbers.read_bit()?,
    })
}

fn input(numbers: &mut Numbers, settings: Settings) -> Option<Input> {
    let records = Records {
        plain: record(numbers)?,
        panic: record(numbers)?,
        nop: record(numbers)?,
    };
    Some(Input {
        code: numbers.read_word()?,
        execute: ExecuteInput {
            word: numbers.read_word()?,
            pointer: numbers.read_bit()?,
        },
        settings,
        records,
    })
}
