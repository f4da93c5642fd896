// From the bytes of standard input, in parts of any size, to a result for each line.
use crate::case::{Case, STORE};
use crate::result;
use std::io::Read;
use std::ops::ControlFlow;
use text::Writer;

// Room for a line of the input, as nothing is allocated. A line that fills it is not read.
const LINE: usize = 65536;

// Room for the longest result, at depth 16 with 20 digits each: nothing is allocated.
const ROOM: usize = 20480;

// The result and the store of a line. They are lent to each: what a function has of its own is cleared at every call.
#[derive(Drop)]
struct Room {
    result: [u8; ROOM],
    store: [u32; STORE],
}

// How many bytes of a line the buffer begins with between two reads; None where the rest of the line is skipped.
type Held = Option<usize>;

fn is_line_end(byte: &u8) -> bool {
    *byte == b'\n'
}

// A case; one for execute alone begins with that word.
fn put_result(out: &mut Writer, store: &mut [u32; STORE], line: &[u8]) {
    let alone = line.strip_prefix(b"execute ");
    let Some(case) = Case::of(alone.unwrap_or(line), store) else {
        out.put_bytes(b"unread");
        return;
    };
    if alone.is_some() {
        let executed = case.execute(store);
        result::put_executed(out, &executed, store);
    } else {
        let cycled = case.cycle(store);
        result::put_cycled(out, &cycled, store);
    }
}

// Nothing is said where the result cannot be written.
fn run_line(rt: &impl Print, room: &mut Room, line: &[u8]) {
    let mut out = Writer {
        buffer: &mut room.result,
        position: 0,
    };
    put_result(&mut out, &mut room.store, line);
    out.put_byte(b'\n');
    let Writer { buffer, position } = out;
    let _ = rt.write_all(&buffer[..position]);
}

// Runs each line that has its end, and moves what is left to the front.
fn run_lines(rt: &impl Print, room: &mut Room, bytes: &mut [u8], held: Held) -> Held {
    let Some(end) = bytes.iter().rposition(is_line_end) else {
        return held.and(Some(bytes.len()));
    };
    let skipped = usize::from(held.is_none());
    for line in bytes[..end].split(is_line_end).skip(skipped) {
        run_line(rt, room, line);
    }
    bytes.copy_within(end + 1.., 0);
    Some(bytes.len() - end - 1)
}

// Reads once, and runs the lines that are whole then. It breaks at the end of the input; a read that fails counts as that.
fn turn(
    rt: &impl Print,
    input: &mut impl Read,
    buffer: &mut [u8],
    room: &mut Room,
    held: Held,
) -> ControlFlow<(), Held> {
    let start = held.unwrap_or(0);
    if buffer.len() <= start {
        let _ = rt.write_all(b"unread\n");
        return ControlFlow::Continue(None);
    }
    let count = input.read(&mut buffer[start..]).unwrap_or(0);
    if count != 0 {
        let next = run_lines(rt, room, &mut buffer[..start + count], held);
        return ControlFlow::Continue(next);
    }
    if start != 0 {
        run_line(rt, room, &buffer[..start]);
    }
    ControlFlow::Break(())
}

// The count is a bound by which the loop ends by itself, and no run comes to it: nothing says that the input ends, and a loop without
// a bound would want `Wait`, which no function of the project has.
pub(crate) fn serve(rt: &impl Print, input: &mut impl Read) {
    let mut buffer = [0u8; LINE];
    let mut room = Room {
        result: [0; ROOM],
        store: [0; STORE],
    };
    let mut held = Some(0);
    for _ in 0..u64::MAX {
        let ControlFlow::Continue(next) = turn(rt, input, &mut buffer, &mut room, held) else {
            break;
        };
        held = next;
    }
}
