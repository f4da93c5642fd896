// Instruction records with the lists of their fields, settings and flags; refusal 3, and refusal 1 of every stage.
#![tactic(auto)]

ghost use Rattle.std.specs.Prelude.{◌≡◌};
ghost use Rattle.records.specs.Record.{instruction};

pub mod checks;
pub mod kinds;
pub mod sizes;

// Made by the caller, read by every stage.
#[derive(Clone, Copy)]
pub struct Settings {
    pub depth_limit: u32,
    pub near_call_multiplier: u32,
    pub time_step: u32,
}

// An instruction. Kinds and registers are numbers, so that a record can be refused; the order leaves no hole.
#[derive(Clone, Copy, Default)]
pub struct Record {
    pub operation: u8,
    pub return_kind: u8,
    pub condition: u8,
    pub source_kind: u8,
    pub destination_kind: u8,
    pub src0: u8,
    pub src1: u8,
    pub dst0: u8,
    pub imm_0: u16,
    pub imm_1: u16,
    pub price: u32,
    pub explicit_panic: bool,
    pub kernel_only: bool,
    pub allowed_when_static: bool,
    pub swap: bool,
    pub set_flags: bool,
    pub to_label: bool,
    pub src0_may_be_pointer: bool,
    pub src1_may_be_pointer: bool,
}

// The fields of a record that say what its operands are.
#[derive(Clone, Copy, Default)]
pub struct OperandFields {
    pub source_kind: u8,
    pub destination_kind: u8,
    pub src0: u8,
    pub src1: u8,
    pub dst0: u8,
    pub imm_0: u16,
    pub imm_1: u16,
}

// The three that come together: the instruction as it stands, masked into panic, and masked into nop.
#[derive(Clone, Copy, Default)]
pub struct Records {
    pub plain: Record,
    pub panic: Record,
    pub nop: Record,
}

#[derive(Clone, Copy, Default)]
pub struct Flags {
    pub overflow_or_less_than_flag: bool,
    pub equality_flag: bool,
    pub greater_than_flag: bool,
}

// A record with these fields; the others are 0 or no. The kinds are numbers as in the record, so that one that is refused can be made too.
pub fn instruction(
    operation: u8,
    return_kind: u8,
    operands: OperandFields,
    price: u32,
    set_flags: bool,
) -> Record
    ensures { result ≡ instruction operation return_kind operands price set_flags }
{
    Record {
        operation,
        return_kind,
        source_kind: operands.source_kind,
        destination_kind: operands.destination_kind,
        src0: operands.src0,
        src1: operands.src1,
        dst0: operands.dst0,
        imm_0: operands.imm_0,
        imm_1: operands.imm_1,
        price,
        set_flags,
        ..Record::default()
    }
}
