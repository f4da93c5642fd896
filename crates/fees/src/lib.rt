// Fee units: a spend in units of a set number of ergs, and a bill of many, from the bytes of an input to the bytes printed.
#![tactic(auto)]

ghost use Rattle.std.specs.Prelude.{◌≡◌, ◌≤◌, Err, cond, eqb, length, take, drop};
ghost use Rattle.text.specs.Bytes.{Wrote};
ghost use Rattle.text.specs.Lines.{lines_left};
ghost use Rattle.fees.specs.Fee.{fee_of, fee_number, FeesAddUp, NoOtherFee};
ghost use Rattle.fees.specs.Bill.{bill_row, bill_lines, bill_of};

use text::{Lines, TOO_LONG, Writer};

// Room for the longest bill: 21 bytes for each byte of the longest input, and 128 for the names line and what ends the bill.
pub const ROOM: usize = 1376384;

// The whole units of a spend, and the ergs over.
#[derive(Clone, Copy, Debug, PartialEq, Eq)]
pub struct FeeUnits {
    pub units: u64,
    pub rest: u64,
}

// What is answered in place of a fee in units of 0 ergs.
#[derive(Clone, Copy, Debug, PartialEq, Eq)]
pub struct ZeroUnit;

impl ZeroUnit {
    // Document 02's number.
    pub fn number(self) -> u32
        ensures { result ≡ fee_number (Err self) }
    {
        23
    }
}

// A spend in units of so many ergs.
pub fn fee(spend: u64, unit: u64) -> Result<FeeUnits, ZeroUnit>
    ensures { (result ≡ fee_of spend unit) × (fee_number result ≡ cond (eqb unit 0) 23 0) }
{
    if unit == 0 {
        return Err(ZeroUnit);
    }
    Ok(FeeUnits {
        units: spend / unit,
        rest: spend % unit,
    })
}

// Units times size plus the rest is the spend, and the rest is below the size.
pub fn fees_add_up()
    ensures { FeesAddUp }
{}

// No other two numbers are so.
pub fn no_other_fee()
    ensures { NoOtherFee }
{}

// A row `spend unit units rest`.
fn put_fee(writer: &mut Writer<'_>, spend: u64, unit: u64, fee: FeeUnits)
    ensures { Wrote writer.old (bill_row spend unit fee) writer.new }
{
    table::put_field(writer, spend, b' ');
    table::put_field(writer, unit, b' ');
    table::put_field(writer, fee.units, b' ');
    table::put_field(writer, fee.rest, b'\n');
}

// The lines from the second on. The position is asked for here and is no invariant of the writer, whose fields are public: callers may give any.
fn put_fees(lines: Lines<'_>, writer: &mut Writer<'_>)
    requires { writer.old.position ≤ length writer.old.buffer.now }
    ensures { Wrote writer.old (bill_lines 2 (lines_left lines.entry)) writer.new }
{
    for (line, n) in lines.zip(2u64..) {
        let Some((spend, unit)) = text::read_pair(line) else {
            return table::put_bad_line(writer, n);
        };
        match fee(spend, unit) {
            Ok(fee) => put_fee(writer, spend, unit, fee),
            Err(zero) => return table::put_refused(writer, zero.number()),
        }
    }
}

// The names line, and what follows it.
fn put_bill(input: &[u8], writer: &mut Writer<'_>)
    ensures { Wrote writer.old (bill_of input.now) writer.new }
{
    writer.put_bytes(b"spend unit units rest\n");
    if TOO_LONG <= input.len() {
        return table::put_bad_line(writer, 0);
    }
    let mut lines = Lines::new(input);
    if lines.next_or_empty() != b"spend unit".as_slice() {
        return table::put_bad_line(writer, 1);
    }
    put_fees(lines, writer);
}

// What the program units prints for an input, written from the front of the buffer, which has room for all of it; the answer is its length.
pub fn bill(input: &[u8], buffer: &mut [u8; ROOM]) -> usize
    ensures { (result ≡ length (bill_of input.now))
        × (take result buffer.new ≡ bill_of input.now)
        × (drop result buffer.new ≡ drop result buffer.old) }
{
    let mut writer = Writer {
        buffer,
        position: 0,
    };
    put_bill(input, &mut writer);
    writer.position
}
