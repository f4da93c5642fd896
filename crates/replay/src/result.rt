// A result, written on a line number by number, as compare/README.md lists them. What is not there is 0.
use crate::case::{STORE, words_of};
use addressing::Location;
use cycle::Cycled;
use decoding::ErrorFlags;
use frame::{Frame, ROW_WIDTH};
use refusal::Refusal;
use stages::{
    DecodeAnswer, Event, ExecuteAnswer, Executed, FetchAnswer, OperandsAnswer, Stage, State, Write,
};
use text::Writer;
use u256::U256;

// A space and a number.
fn put<N: Into<u64>>(out: &mut Writer, n: N) {
    out.put_byte(b' ');
    out.put_number(n.into());
}

fn put_all<N: Into<u64> + Copy>(out: &mut Writer, numbers: &[N]) {
    for n in numbers {
        put(out, *n);
    }
}

fn put_word(out: &mut Writer, word: U256) {
    put_all(out, &[word.w0, word.w1, word.w2, word.w3]);
}

fn put_registers(out: &mut Writer, state: &State) {
    for (register, pointer) in state.registers.iter().zip(&state.pointers) {
        put_word(out, *register);
        put(out, *pointer);
    }
}

// What the state has beside registers and frames.
fn put_counters(out: &mut Writer, state: &State) {
    let flags = state.flags;
    put(out, flags.overflow_or_less_than_flag);
    put(out, flags.equality_flag);
    put(out, flags.greater_than_flag);
    put(out, state.timestamp);
    put(out, state.monotonic_cycle_counter);
    put(out, state.pending_exception);
    put_word(out, state.previous_code_word);
    put(out, state.previous_code_memory_page);
    put(out, state.previous_super_pc);
    put(out, signed::to_word(state.pubdata_revert_counter.0));
    put(out, state.depth);
}

// As it would be saved, in a row's own array: nothing is allocated.
fn put_frame(out: &mut Writer, current: Frame) {
    let mut row = [0u32; ROW_WIDTH];
    let _ = frame::save_frame(&mut row, 0, current);
    put_all(out, &row);
}

fn put_state(out: &mut Writer, state: &State, store: &[u32; STORE]) {
    put_registers(out, state);
    put_counters(out, state);
    put_frame(out, state.current);
    put_all(out, &store[..words_of(state.depth)]);
}

// Its kind, page, index and time.
fn place_numbers(place: Location) -> [u32; 4] {
    match place {
        Location::None => [0; 4],
        Location::At {
            memory_type,
            index,
            page,
            time,
        } => [u32::from(memory_type), page, u32::from(index), time],
    }
}

// That a read was wanted, 1, stands for its kind, which is always code.
fn put_read(out: &mut Writer, place: Location) {
    let [kind, page, index, time] = place_numbers(place);
    put_all(out, &[kind.min(1), page, index, time]);
}

fn put_fetch(out: &mut Writer, answer: FetchAnswer) {
    match answer {
        FetchAnswer::Code(bits) => put_all(out, &[0, bits]),
        FetchAnswer::Exception => put_all(out, &[1u64, 0]),
        FetchAnswer::Nop => put_all(out, &[2u64, 0]),
    }
}

// A bit for each flag: what a line has is numbers.
fn errors_number(errors: ErrorFlags) -> u8 {
    u8::from(errors.invalid_opcode)
        | u8::from(errors.not_enough_ergs) << 1
        | u8::from(errors.privilaged_access_not_from_kernel) << 2
        | u8::from(errors.write_in_static_context) << 3
        | u8::from(errors.callstack_is_full) << 4
}

fn put_decode(out: &mut Writer, answer: DecodeAnswer) {
    put(out, errors_number(answer.errors));
    put(out, answer.charge);
}

fn put_operands(out: &mut Writer, answer: OperandsAnswer) {
    put_all(out, &place_numbers(answer.source));
    put_all(out, &place_numbers(answer.destination));
}

fn put_write(out: &mut Writer, write: Option<Write>) {
    let Some(write) = write else {
        put_all(out, &[0u32; 10]);
        return;
    };
    let kind = u32::from(write.memory_type);
    let index = u32::from(write.index);
    put_all(out, &[1, kind, write.page, index, write.time]);
    put_word(out, write.value.value);
    put(out, write.value.is_pointer);
}

// A number, as all that a line has.
fn event_number(event: Option<Event>) -> u8 {
    match event {
        None => 0,
        Some(Event::Opened) => 1,
        Some(Event::Closed(false)) => 2,
        Some(Event::Closed(true)) => 3,
    }
}

fn put_execute(out: &mut Writer, answer: ExecuteAnswer) {
    put_write(out, answer.write);
    put(out, event_number(answer.event));
}

fn put_refused(out: &mut Writer, refusal: Refusal, stage: Stage) {
    out.put_bytes(b"refused");
    put_all(out, &[refusal.number(), stage as u32]);
}

pub(crate) fn put_cycled(out: &mut Writer, cycled: &Cycled, store: &[u32; STORE]) {
    match cycled.answer {
        Ok(answer) => {
            out.put_bytes(b"ok");
            put_state(out, &cycled.state, store);
            put_read(out, answer.read);
            put_fetch(out, answer.fetch);
            put_decode(out, answer.decode);
            put_operands(out, answer.operands);
            put_execute(out, answer.execute);
        }
        Err(refused) => put_refused(out, refused.refusal, refused.stage),
    }
}

// There is no part for the other stages.
pub(crate) fn put_executed(out: &mut Writer, executed: &Executed, store: &[u32; STORE]) {
    match executed.answer {
        Ok(answer) => {
            out.put_bytes(b"ok");
            put_state(out, &executed.state, store);
            put_execute(out, answer);
        }
        Err(refusal) => put_refused(out, refusal, Stage::Execute),
    }
}
