// What a listing or a bill prints.
ghost use Rattle.text.specs.Bytes.{Wrote, bytes_of};
ghost use Rattle.std.specs.Prelude.{◌++◌};
ghost use Rattle.table.specs.Row.{field, row_text, bad_line, refused_line};

use crate::Row;
use text::Writer;

// A number, and the byte after it.
pub fn put_field(writer: &mut Writer<'_>, number: u64, separator: u8)
    ensures { Wrote writer.old (field number separator) writer.new }
{
    writer.put_number(number);
    writer.put_byte(separator);
}

// Part by part: `write!` promises its text only where it answers Ok, and here nothing fails or is allocated.
pub fn put_row(writer: &mut Writer<'_>, row: Row)
    ensures { Wrote writer.old (row_text row) writer.new }
{
    put_field(writer, row.cycle, b' ');
    writer.put_bytes(row.op.name());
    writer.put_byte(b' ');
    put_field(writer, u64::from(row.charge), b' ');
    put_field(writer, u64::from(row.depth), b' ');
    put_field(writer, u64::from(row.held), b' ');
    put_field(writer, row.total, b' ');
    put_field(writer, row.own, b'\n');
}

// A line of a label and a number.
fn put_labelled(writer: &mut Writer<'_>, label: &[u8], number: u64)
    ensures { Wrote writer.old (label.now ++ field number 10) writer.new }
{
    writer.put_bytes(label);
    put_field(writer, number, b'\n');
}

pub fn put_bad_line(writer: &mut Writer<'_>, n: u64)
    ensures { Wrote writer.old (bad_line n) writer.new }
{
    put_labelled(writer, b"bad line ", n);
}

// A number and no `Refusal`: what ends a bill is none of those.
pub fn put_refused(writer: &mut Writer<'_>, number: u32)
    ensures { Wrote writer.old (refused_line number) writer.new }
{
    put_labelled(writer, b"refused ", u64::from(number));
}
