// The lines of a listing: what a line of the input says, and what a line of the output prints, with what a bill prints as a listing does.
#![tactic(auto)]

ghost use Rattle.std.specs.Prelude.{◌≡◌};
ghost use Rattle.table.specs.Line.{name_of, op_of};

mod lines;
mod print;

pub use lines::{line_of, start_of};
pub use print::{put_bad_line, put_field, put_refused, put_row};

#[derive(Clone, Copy, Debug, PartialEq, Eq)]
pub enum Op {
    Add,
    Call,
    Ok,
    Revert,
    Panic,
}

impl Op {
    // What a list calls it and the listing prints. One match, an expression for each op: they are bytes, which a `Display` would not give.
    fn name(self) -> &'static [u8]
        ensures { result.now ≡ name_of self }
    {
        match self {
            Op::Add => b"add",
            Op::Call => b"call",
            Op::Ok => b"ok",
            Op::Revert => b"revert",
            Op::Panic => b"panic",
        }
    }

    fn named(name: &[u8]) -> Option<Op>
        ensures { result ≡ op_of name.now }
    {
        [Op::Add, Op::Call, Op::Ok, Op::Revert, Op::Panic]
            .iter()
            .copied()
            .find(|op| name == op.name())
    }
}

// A line of the list, from the fourth on.
#[derive(Clone, Copy)]
pub struct Line {
    pub op: Op,
    pub price: u32,
    pub want: u32,
}

// The second line.
#[derive(Clone, Copy)]
pub struct Start {
    pub ergs: u32,
    pub limit: u32,
}

// What a line of the output shows.
#[derive(Clone, Copy)]
pub struct Row {
    pub total: u64,
    pub own: u64,
    pub cycle: u64,
    pub charge: u32,
    pub depth: u32,
    pub held: u32,
    pub op: Op,
}
