// The lists of a record's fields. A record has their numbers, since one that is in no list has to be answered too. An enum is cast
// to its number where it is written or compared: a `From` for each would hold that cast and no more.
ghost use Rattle.std.specs.Prelude.{◌≡◌, Some};
ghost use Rattle.records.specs.Kinds.{operation_numbered, operand_numbered, condition_numbered, return_kind_text};

use std::fmt::{self, Display, Formatter};

#[derive(Clone, Copy, Debug, PartialEq, Eq)]
pub enum Operation {
    Nop,
    Add,
    Sub,
    NearCall,
    Ret,
    Other,
}

#[derive(Clone, Copy, Debug, PartialEq, Eq)]
pub enum ReturnKind {
    Ok,
    Revert,
    Panic,
}

// Where an operand is.
#[derive(Clone, Copy, Debug, PartialEq, Eq)]
pub enum OperandKind {
    Register,
    Immediate,
    PushPop,
    StackOffset,
    CodePage,
    AbsoluteStack,
}

#[derive(Clone, Copy, Debug, PartialEq, Eq)]
pub enum Condition {
    Always,
    Gt,
    Lt,
    Eq,
    Ge,
    Le,
    Ne,
    GtOrLt,
}

// A number that is in no list.
#[derive(Clone, Copy, Debug, PartialEq, Eq)]
pub struct NoSuchKind;

impl Display for ReturnKind {
    ghost output = { λ kind. Some (return_kind_text kind) };

    fn fmt<W: fmt::Write>(&self, f: &mut Formatter<W>) -> fmt::Result {
        f.write_str(match self {
            ReturnKind::Ok => "ok",
            ReturnKind::Revert => "revert",
            ReturnKind::Panic => "panic",
        })
    }
}

// Three impls alike: generic over a list they would need a trait that gives each list, with an impl for each again, and macros of our own are refused.
impl TryFrom<u8> for Operation {
    type Error = NoSuchKind;

    ghost try_from_gives = { λ number kind. kind ≡ operation_numbered number };

    fn try_from(number: u8) -> Result<Operation, NoSuchKind> {
        match number {
            0 => Ok(Operation::Nop),
            1 => Ok(Operation::Add),
            2 => Ok(Operation::Sub),
            3 => Ok(Operation::NearCall),
            4 => Ok(Operation::Ret),
            5 => Ok(Operation::Other),
            _ => Err(NoSuchKind),
        }
    }
}

impl TryFrom<u8> for OperandKind {
    type Error = NoSuchKind;

    ghost try_from_gives = { λ number kind. kind ≡ operand_numbered number };

    fn try_from(number: u8) -> Result<OperandKind, NoSuchKind> {
        match number {
            0 => Ok(OperandKind::Register),
            1 => Ok(OperandKind::Immediate),
            2 => Ok(OperandKind::PushPop),
            3 => Ok(OperandKind::StackOffset),
            4 => Ok(OperandKind::CodePage),
            5 => Ok(OperandKind::AbsoluteStack),
            _ => Err(NoSuchKind),
        }
    }
}

impl TryFrom<u8> for Condition {
    type Error = NoSuchKind;

    ghost try_from_gives = { λ number kind. kind ≡ condition_numbered number };

    fn try_from(number: u8) -> Result<Condition, NoSuchKind> {
        match number {
            0 => Ok(Condition::Always),
            1 => Ok(Condition::Gt),
            2 => Ok(Condition::Lt),
            3 => Ok(Condition::Eq),
            4 => Ok(Condition::Ge),
            5 => Ok(Condition::Le),
            6 => Ok(Condition::Ne),
            7 => Ok(Condition::GtOrLt),
            _ => Err(NoSuchKind),
        }
    }
}
