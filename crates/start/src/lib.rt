// States and records that are 0 or no but for what is given, depth 1, time step 4 and the masked records' operations: where a listing starts, and the edges.
#![tactic(auto)]

ghost use Rattle.std.specs.Prelude.{◌≡◌, false};
ghost use Rattle.start.specs.Start as start;

use addressing::Location;
use frame::{Frame, PubdataCost};
use records::kinds::{Operation, ReturnKind};
use records::{Flags, OperandFields, Record, Records, Settings};
use stages::{Kept, Stage, State};

pub fn far_frame(ergs: u32, sp: u16) -> Frame
    ensures { result ≡ start.far_frame ergs sp }
{
    Frame {
        ergs_remaining: ergs,
        sp,
        ..Frame::default()
    }
}

// The plain record with the two that it may be masked into.
pub fn records_of(plain: Record) -> Records
    ensures { result ≡ start.records_of plain }
{
    let panic = records::instruction(
        Operation::Ret as u8,
        ReturnKind::Panic as u8,
        OperandFields::default(),
        0,
        false,
    );
    Records {
        plain,
        panic,
        nop: Record::default(),
    }
}

pub fn settings_of(limit: u32, multiplier: u32) -> Settings
    ensures { result ≡ start.settings_of limit multiplier }
{
    Settings {
        depth_limit: limit,
        near_call_multiplier: multiplier,
        time_step: 4,
    }
}

// Depth 1, in a far frame.
pub fn start_state(ergs: u32, sp: u16) -> State
    ensures { result ≡ start.start_state ergs sp }
{
    let none = u256::empty_word();
    let current = far_frame(ergs, sp);
    let kept = Kept {
        instruction: Record::default(),
        write: Location::None,
    };
    State {
        registers: [none; 15],
        current,
        previous_code_word: none,
        fetched_word: None,
        kept,
        flags: Flags::default(),
        previous_code_memory_page: 0,
        timestamp: 0,
        monotonic_cycle_counter: 0,
        depth: 1,
        pubdata_revert_counter: PubdataCost::default(),
        previous_super_pc: 0,
        pointers: [false; 15],
        stage: Stage::Fetch as u8,
        pending_exception: false,
    }
}
