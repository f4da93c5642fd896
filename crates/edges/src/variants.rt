// The listing's variants: each is an input, and what is listed for it after the names line.
use crate::show::show;
use listing::ROOM;
use text::TOO_LONG;

// A name and an input each.
const VARIANTS: [(&str, &str); 50] = [
    // the example
    (
        "the example",
        "ergs limit\n1000 4\nop price want\nadd 6 0\ncall 25 300\nadd 6 0\nok 5 0\ncall 25 0\nrevert 5 0\n",
    ),
    (
        "the example without its last line end",
        "ergs limit\n1000 4\nop price want\nadd 6 0\ncall 25 300\nadd 6 0\nok 5 0\ncall 25 0\nrevert 5 0",
    ),
    // few lines
    ("empty input", ""),
    ("a line end alone", "\n"),
    ("one line", "ergs limit\n"),
    ("two lines", "ergs limit\n1000 4\n"),
    (
        "three lines and no cycle",
        "ergs limit\n1000 4\nop price want\n",
    ),
    (
        "three lines, the last without its line end",
        "ergs limit\n1000 4\nop price want",
    ),
    // names
    (
        "wrong name in line 1",
        "ergs depth\n1000 4\nop price want\nadd 6 0\n",
    ),
    (
        "a third name in line 1",
        "ergs limit want\n1000 4\nop price want\nadd 6 0\n",
    ),
    (
        "wrong name in line 3",
        "ergs limit\n1000 4\nop cost want\nadd 6 0\n",
    ),
    (
        "a name missing in line 3",
        "ergs limit\n1000 4\nop price\nadd 6 0\n",
    ),
    ("wrong op", "ergs limit\n1000 4\nop price want\nsub 6 0\n"),
    (
        "op in capitals",
        "ergs limit\n1000 4\nop price want\nADD 6 0\n",
    ),
    // fields
    (
        "field missing",
        "ergs limit\n1000 4\nop price want\nadd 6\n",
    ),
    (
        "field missing in line 2",
        "ergs limit\n1000\nop price want\nadd 6 0\n",
    ),
    (
        "a want that is empty",
        "ergs limit\n1000 4\nop price want\nadd 6 \n",
    ),
    (
        "field too many",
        "ergs limit\n1000 4\nop price want\nadd 6 0 0\n",
    ),
    (
        "field too many in line 2",
        "ergs limit\n1000 4 4\nop price want\nadd 6 0\n",
    ),
    (
        "two spaces",
        "ergs limit\n1000 4\nop price want\nadd  6 0\n",
    ),
    (
        "leading space",
        "ergs limit\n1000 4\nop price want\n add 6 0\n",
    ),
    (
        "trailing space",
        "ergs limit\n1000 4\nop price want\nadd 6 0 \n",
    ),
    ("tab", "ergs limit\n1000 4\nop price want\nadd\t6 0\n"),
    (
        "carriage return",
        "ergs limit\n1000 4\nop price want\nadd 6 0\r\n",
    ),
    // values
    (
        "plus sign in a value",
        "ergs limit\n1000 4\nop price want\nadd +6 0\n",
    ),
    (
        "minus sign in a value",
        "ergs limit\n1000 4\nop price want\nadd 6 -0\n",
    ),
    (
        "letter in a value",
        "ergs limit\n1000 4\nop price want\nadd 6x 0\n",
    ),
    (
        "empty line in the middle",
        "ergs limit\n1000 4\nop price want\nadd 6 0\n\nadd 6 0\n",
    ),
    (
        "empty line at the end",
        "ergs limit\n1000 4\nop price want\nadd 6 0\n\n",
    ),
    (
        "4294967296 as ergs",
        "ergs limit\n4294967296 4\nop price want\nadd 6 0\n",
    ),
    (
        "4294967296 as price",
        "ergs limit\n1000 4\nop price want\nadd 4294967296 0\n",
    ),
    (
        "4294967296 as want",
        "ergs limit\n1000 4\nop price want\ncall 6 4294967296\n",
    ),
    // the widest values
    (
        "4294967295 as ergs",
        "ergs limit\n4294967295 4\nop price want\nadd 6 0\n",
    ),
    (
        "4294967295 as ergs and price",
        "ergs limit\n4294967295 4\nop price want\nadd 4294967295 0\n",
    ),
    (
        "4294967295 as want",
        "ergs limit\n1000 4\nop price want\ncall 6 4294967295\n",
    ),
    (
        "leading zeros",
        "ergs limit\n0001000 004\nop price want\nadd 00000000000006 00\n",
    ),
    // limits
    ("limit 0", "ergs limit\n1000 0\nop price want\n"),
    ("limit 17", "ergs limit\n1000 17\nop price want\n"),
    (
        "limit 4294967300",
        "ergs limit\n1000 4294967300\nop price want\n",
    ),
    ("limit 1", "ergs limit\n1000 1\nop price want\n"),
    ("limit 16", "ergs limit\n1000 16\nop price want\nadd 6 0\n"),
    // refusals
    (
        "ok at depth 1",
        "ergs limit\n1000 4\nop price want\nadd 6 0\nok 5 0\nadd 6 0\n",
    ),
    (
        "lack of ergs at depth 1",
        "ergs limit\n10 4\nop price want\nadd 6 0\nadd 6 0\nadd 6 0\n",
    ),
    (
        "revert at depth 1",
        "ergs limit\n1000 4\nop price want\nrevert 5 0\n",
    ),
    (
        "panic at depth 1",
        "ergs limit\n1000 4\nop price want\npanic 5 0\n",
    ),
    (
        "any op at limit 1",
        "ergs limit\n1000 1\nop price want\nadd 6 0\n",
    ),
    // inner frames
    (
        "charge cut short in an inner frame",
        "ergs limit\n1000 4\nop price want\ncall 25 10\nadd 6 0\nadd 6 0\nadd 6 0\n",
    ),
    (
        "revert of an inner frame",
        "ergs limit\n1000 4\nop price want\ncall 25 300\nadd 6 0\nrevert 5 0\nadd 6 0\n",
    ),
    (
        "panic of an inner frame",
        "ergs limit\n1000 4\nop price want\ncall 25 300\nadd 6 0\npanic 5 0\nadd 6 0\n",
    ),
    // the deepest
    (
        "fifteen calls to limit 16, then add and call there",
        "ergs limit\n1000 16\nop price want\ncall 1 0\ncall 1 0\ncall 1 0\ncall 1 0\ncall 1 0\ncall 1 0\ncall 1 0\ncall 1 0\ncall 1 0\ncall 1 0\ncall 1 0\ncall 1 0\ncall 1 0\ncall 1 0\ncall 1 0\nadd 6 0\ncall 1 0\ncall 1 0\nok 5 0\nok 5 0\n",
    ),
];

fn variant(rt: &impl Print, name: &str, input: &[u8]) {
    // nothing is allocated
    let mut buffer = [0u8; ROOM];
    let size = listing::listing(input, &mut buffer);
    show(rt, name, &buffer[..size], b"no cycle");
}

pub(crate) fn table(rt: &impl Print) {
    for (name, input) in &VARIANTS {
        variant(rt, name, input.as_bytes());
    }
}

// Its ergs are a 1 after so many zeros that the input is a byte longer than is taken. An array, as nothing is allocated.
fn too_long() -> [u8; TOO_LONG] {
    let mut input = [b'0'; TOO_LONG];
    input[..11].copy_from_slice(b"ergs limit\n");
    input[TOO_LONG - 27..].copy_from_slice(b"1 4\nop price want\nadd 1 0\n\n");
    input
}

pub(crate) fn longest(rt: &impl Print) {
    let input = too_long();
    let (taken, _) = input.split_at(TOO_LONG - 1);
    variant(rt, "input of 65536 bytes", taken);
    variant(rt, "input of 65537 bytes", &input);
}
