// The nearbook listing: from the bytes of an input to the bytes printed.
#![tactic(auto)]

ghost use Rattle.std.specs.Prelude.{◌≡◌, ◌≤◌, length, take, drop, MatchResult};
ghost use Rattle.text.specs.Bytes.{Wrote};
ghost use Rattle.text.specs.Lines.{lines_left};
ghost use Rattle.table.specs.Row.{bad_line};
ghost use Rattle.line_cycle.specs.LineCycle.{start_holding};
ghost use Rattle.listing.specs.Listing.{lines_text, from_names_line, listing_of};

use table::Start;
use text::{Lines, TOO_LONG, Writer};

// Room for the longest listing: 20 bytes for each byte of the longest input, and 128 for the names line and what ends the listing.
pub const ROOM: usize = 1310848;

// The largest limit of a list, and the places of the store and of the tally for it: arrays, since nothing is allocated.
const DEEPEST: usize = 16;

const STORE: usize = frame::ROW_WIDTH * DEEPEST;

const TALLY: usize = DEEPEST + 1;

// The lines from the fourth on, each of which is a cycle. The position is asked for here and is no invariant of the writer, whose fields are
// public: callers may give any.
fn put_cycles(start: Start, lines: Lines<'_>, writer: &mut Writer<'_>)
    requires { writer.old.position ≤ length writer.old.buffer.now }
    ensures { Wrote writer.old (lines_text start.limit 1 (start_holding start.ergs) (lines_left lines.entry)) writer.new }
{
    let mut store = [0u32; STORE];
    let mut tally = [0u64; TALLY];
    let mut state = start::start_state(start.ergs, 0);
    for (line, cycle) in lines.zip(1u64..) {
        let Some(line) = table::line_of(line) else {
            return table::put_bad_line(writer, cycle + 3);
        };
        let ran = line_cycle::run_line(state, start.limit, &mut store, &mut tally, line);
        if let Err(refusal) = ran.answer {
            return table::put_refused(writer, refusal.number());
        }
        state = ran.state;
        let row = line_cycle::printed_row(cycle, line.op, ran.charge, state, &store, &tally);
        table::put_row(writer, row);
    }
}

// The number of a line that is bad.
#[derive(Clone, Copy)]
struct BadLine {
    number: u64,
}

// Where the first three lines start, or the first of them that is bad.
#[tactic(auto, unfolding(crate::specs::Listing::from_names_line, crate::specs::Listing::from_values_line, crate::specs::Listing::from_columns_line))]
fn read_start(lines: &mut Lines<'_>) -> Result<Start, BadLine>
    ensures { MatchResult result
        (λ start. from_names_line (lines_left lines.old) ≡ lines_text start.limit 1 (start_holding start.ergs) (lines_left lines.new))
        (λ bad. from_names_line (lines_left lines.old) ≡ bad_line bad.number) }
{
    if lines.next_or_empty() != b"ergs limit".as_slice() {
        return Err(BadLine { number: 1 });
    }
    let start = table::start_of(lines.next_or_empty()).ok_or(BadLine { number: 2 })?;
    if lines.next_or_empty() != b"op price want".as_slice() {
        return Err(BadLine { number: 3 });
    }
    Ok(start)
}

// The names line, and what follows it.
fn put_listing(input: &[u8], writer: &mut Writer<'_>)
    ensures { Wrote writer.old (listing_of input.now) writer.new }
{
    writer.put_bytes(b"cycle op charge depth held total own\n");
    if TOO_LONG <= input.len() {
        return table::put_bad_line(writer, 0);
    }
    let mut lines = Lines::new(input);
    match read_start(&mut lines) {
        Ok(start) => put_cycles(start, lines, writer),
        Err(bad) => table::put_bad_line(writer, bad.number),
    }
}

// What nearbook prints for an input, written from the front of the buffer, which has room for all of it. The answer is its length, and not
// that part of the buffer: of a buffer that its answer borrows, a clause could not say that the rest stays as it was.
pub fn listing(input: &[u8], buffer: &mut [u8; ROOM]) -> usize
    ensures { (result ≡ length (listing_of input.now))
        × (take result buffer.new ≡ listing_of input.now)
        × (drop result buffer.new ≡ drop result buffer.old) }
{
    let mut writer = Writer {
        buffer,
        position: 0,
    };
    put_listing(input, &mut writer);
    writer.position
}
