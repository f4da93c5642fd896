// Variants of a bill: each is an input, and what is billed for it after the names line.
use crate::show::show;
use fees::ROOM;
use text::TOO_LONG;

// A name and an input each.
const VARIANTS: [(&str, &str); 49] = [
    (
        "the example of a bill",
        "spend unit\n72 10\n42 10\n9 10\n928 1000\n18446744073709551615 4294967296\n5 0\n7 2\n",
    ),
    // names
    ("no line of a bill", ""),
    ("a line end alone in a bill", "\n"),
    ("names alone in a bill", "spend unit"),
    (
        "the last line of a bill without its line end",
        "spend unit\n0 1",
    ),
    ("other names", "unit spend\n7 2\n"),
    ("a name missing", "spend\n7 2\n"),
    ("a third name", "spend unit rest\n7 2\n"),
    ("names in capitals", "SPEND UNIT\n7 2\n"),
    ("a space before the names", " spend unit\n7 2\n"),
    ("a space after the names", "spend unit \n7 2\n"),
    ("two spaces between the names", "spend  unit\n7 2\n"),
    ("a tab between the names", "spend\tunit\n7 2\n"),
    ("a carriage return after the names", "spend unit\r\n7 2\r\n"),
    // fields and values
    ("unit missing", "spend unit\n7\n"),
    ("a value too many", "spend unit\n7 2 1\n"),
    ("two spaces in a bill", "spend unit\n7  2\n"),
    ("leading space in a bill", "spend unit\n 7 2\n"),
    ("trailing space in a bill", "spend unit\n7 2 \n"),
    ("a spend that is empty", "spend unit\n 2\n"),
    ("a unit that is empty", "spend unit\n7 \n"),
    ("tab in a bill", "spend unit\n7\t2\n"),
    ("carriage return in a bill", "spend unit\n7 2\r\n"),
    ("plus sign in a spend", "spend unit\n+7 2\n"),
    ("minus sign in a unit", "spend unit\n7 -2\n"),
    ("letter in a spend", "spend unit\nx 0\n"),
    ("letter in a unit", "spend unit\n7 2x\n"),
    ("the byte below 0 in a spend", "spend unit\n/ 2\n"),
    ("the byte above 9 in a spend", "spend unit\n: 2\n"),
    (
        "empty line in the middle of a bill",
        "spend unit\n7 2\n\n7 2\n",
    ),
    ("empty line at the end of a bill", "spend unit\n7 2\n\n"),
    ("a bad line without its line end", "spend unit\n7"),
    // the widest values
    (
        "18446744073709551616 as spend",
        "spend unit\n18446744073709551616 1\n",
    ),
    (
        "18446744073709551616 as unit",
        "spend unit\n1 18446744073709551616\n",
    ),
    (
        "18446744073709551620 as spend",
        "spend unit\n18446744073709551620 1\n",
    ),
    (
        "99999999999999999999 as spend",
        "spend unit\n99999999999999999999 1\n",
    ),
    (
        "4294967296 as spend and unit",
        "spend unit\n4294967296 4294967296\n",
    ),
    (
        "18446744073709551615 as spend",
        "spend unit\n18446744073709551615 1\n",
    ),
    (
        "18446744073709551615 as spend and unit",
        "spend unit\n18446744073709551615 18446744073709551615\n",
    ),
    ("leading zeros in a bill", "spend unit\n007 002\n"),
    // rests and refusals
    ("a spend of 0", "spend unit\n0 7\n"),
    ("a spend below its unit", "spend unit\n6 7\n"),
    ("a spend of one unit", "spend unit\n7 7\n"),
    ("a unit of 0", "spend unit\n7 2\n5 0\n7 2\n"),
    ("a spend and a unit of 0", "spend unit\n0 0\n"),
    ("a unit of 00", "spend unit\n5 00\n"),
    ("a bad line before a unit of 0", "spend unit\nx 0\n5 0\n"),
    ("a unit of 0 before a bad line", "spend unit\n5 0\nx 0\n"),
    ("a value too many after a unit of 0", "spend unit\n5 0 1\n"),
];

fn variant(rt: &impl Print, name: &str, input: &[u8]) {
    // nothing is allocated
    let mut buffer = [0u8; ROOM];
    let size = fees::bill(input, &mut buffer);
    show(rt, name, &buffer[..size], b"no row");
}

pub(crate) fn table(rt: &impl Print) {
    for (name, input) in &VARIANTS {
        variant(rt, name, input.as_bytes());
    }
}

// Its spend is a 7 after so many zeros that the input is a byte longer than is taken. An array, as nothing is allocated.
fn too_long() -> [u8; TOO_LONG] {
    let mut input = [b'0'; TOO_LONG];
    input[..11].copy_from_slice(b"spend unit\n");
    input[TOO_LONG - 5..].copy_from_slice(b"7 2\n\n");
    input
}

pub(crate) fn longest(rt: &impl Print) {
    let input = too_long();
    let (taken, _) = input.split_at(TOO_LONG - 1);
    variant(rt, "a bill of 65536 bytes", taken);
    variant(rt, "a bill of 65537 bytes", &input);
    variant(rt, "65537 bytes with no names", &[b'\n'; TOO_LONG]);
}
