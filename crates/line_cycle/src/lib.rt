// One line's cycle, and the row that it prints.
#![tactic(auto)]

ghost use Rattle.std.specs.Prelude.{◌≡◌, ◌+◌, get_or};
ghost use Rattle.frame.specs.Store.{saved_ergs};
ghost use Rattle.line_cycle.specs.LineCycle.{op_record, input_of, requested_state, line_answer, store_after, entries_after, printed_row};

use cycle::Input;
use records::Record;
use records::kinds::{Operation, ReturnKind};
use refusal::Refusal;
use stages::{ExecuteInput, State};
use table::{Line, Op, Row};
use u256::U256;

// What a line's cycle gives, and whether it was refused.
#[derive(Clone, Copy)]
pub struct LineAnswer {
    pub state: State,
    pub charge: u32,
    pub answer: Result<(), Refusal>,
}

// An add and a call have a return kind as well: number 0, that of ok. One match, an expression for each op: a table would need an index of the op.
// The record field by field: by `records::instruction` a listing's cycle takes 99.3 instructions and not 99.0.
fn record_of(op: Op, price: u32) -> Record
    ensures { result ≡ op_record op price }
{
    let (operation, return_kind, src0) = match op {
        Op::Add => (Operation::Add, ReturnKind::Ok, 0),
        Op::Call => (Operation::NearCall, ReturnKind::Ok, 1),
        Op::Ok => (Operation::Ret, ReturnKind::Ok, 0),
        Op::Revert => (Operation::Ret, ReturnKind::Revert, 0),
        Op::Panic => (Operation::Ret, ReturnKind::Panic, 0),
    };
    Record {
        operation: operation as u8,
        return_kind: return_kind as u8,
        src0,
        price,
        ..Record::default()
    }
}

#[tactic(auto, unfolding(crate::specs::LineCycle::input_of))]
pub fn input_of(limit: u32, op: Op, price: u32) -> Input
    ensures { result ≡ input_of limit op price }
{
    let none = u256::empty_word();
    let settings = start::settings_of(limit, 1);
    let records = start::records_of(record_of(op, price));
    Input {
        code: none,
        execute: ExecuteInput {
            word: none,
            pointer: false,
        },
        settings,
        records,
    }
}

// The request of a line in register 1.
#[tactic(auto, unfolding(crate::specs::LineCycle::requested_state))]
pub fn requested(mut state: State, want: u32) -> State
    ensures { result ≡ requested_state state want }
{
    state.registers[0] = U256::from(u64::from(want));
    state
}

// The cycle of a line, and its entry in the tally. A stage's refusal leaves the state that the stage was given, in mid-cycle; the tally's leaves the finished cycle.
// State, store and tally are no struct, here and in `printed_row`: a caller that has the three apart would make one at each call, and take it apart again.
#[tactic(auto, unfolding(crate::specs::LineCycle::line_answer, crate::specs::LineCycle::store_after, crate::specs::LineCycle::entries_after))]
pub fn run_line(
    state: State,
    limit: u32,
    store: &mut [u32],
    tally: &mut [u64],
    line: Line,
) -> LineAnswer
    ensures { (result ≡ line_answer limit line (record { state = state; store = store.old; tally = tally.old }))
        × (store.new ≡ store_after limit line (record { state = state; store = store.old; tally = tally.old }))
        × (tally.new ≡ entries_after limit line (record { state = state; store = store.old; tally = tally.old })) }
{
    let before = state.depth;
    let input = input_of(limit, line.op, line.price);
    let given = requested(state, line.want);
    let cycled = cycle::cycle(given, input, store);
    let after = cycled.state;
    let charge = cycle::cycle_charge(cycled.answer);
    let answer = match cycled.answer {
        Ok(_) => tally::enter(tally, limit, before, after.depth, charge),
        Err(refused) => Err(refused.refusal),
    };
    LineAnswer {
        state: after,
        charge,
        answer,
    }
}

// The tally's place at the depth, 0 where it has none. The cast makes an index: `From` makes no usize of a u32.
fn own_of(tally: &[u64], depth: u32) -> u64
    ensures { result ≡ get_or tally.now depth 0 }
{
    tally.get(depth as usize).copied().unwrap_or(0)
}

// The ergs of the current frame and of those saved.
fn total_of(held: u32, store: &[u32], depth: u32) -> u64
    ensures { result ≡ held + saved_ergs depth store.now }
{
    let saved = frame::saved_ergs(store, depth);
    u64::from(held) + saved
}

#[tactic(auto, unfolding(crate::specs::LineCycle::printed_row))]
pub fn printed_row(
    cycle: u64,
    op: Op,
    charge: u32,
    state: State,
    store: &[u32],
    tally: &[u64],
) -> Row
    ensures { result ≡ printed_row cycle op charge (record { state = state; store = store.now; tally = tally.now }) }
{
    let held = state.current.ergs_remaining;
    let depth = state.depth;
    Row {
        total: total_of(held, store, depth),
        own: own_of(tally, depth),
        cycle,
        charge,
        depth,
        held,
        op,
    }
}
