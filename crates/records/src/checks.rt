// What is checked of records: each field in its list, and whether the three may come together.
ghost use Rattle.std.specs.Prelude.{◌≡◌, nat_le};
ghost use Rattle.records.specs.Record.{good_kinds, good_registers, good_record, is_panic, is_nop, is_arithmetic, bad_records};

use crate::kinds::{Condition, OperandKind, Operation, ReturnKind};
use crate::{Record, Records};

fn is_operation(r: Record) -> bool
    ensures { result ≡ nat_le r.operation 5 }
{
    Operation::try_from(r.operation).is_ok()
}

// By a bound: a `TryFrom` of return kinds would serve this test alone.
fn is_return_kind(r: Record) -> bool
    ensures { result ≡ nat_le r.return_kind 2 }
{
    r.return_kind <= ReturnKind::Panic as u8
}

fn is_condition(r: Record) -> bool
    ensures { result ≡ nat_le r.condition 7 }
{
    Condition::try_from(r.condition).is_ok()
}

// By bounds: held against its list of four a destination costs an opaque cycle 582 instructions and not 528 (docs/SPEED.md).
fn good_kinds(r: Record) -> bool
    ensures { result ≡ good_kinds r }
{
    (r.source_kind <= OperandKind::AbsoluteStack as u8)
        & (r.destination_kind <= OperandKind::AbsoluteStack as u8)
        & (r.destination_kind != OperandKind::Immediate as u8)
        & (r.destination_kind != OperandKind::CodePage as u8)
}

fn good_registers(r: Record) -> bool
    ensures { result ≡ good_registers r }
{
    (r.src0 <= 15) & (r.src1 <= 15) & (r.dst0 <= 15)
}

pub fn good_record(r: Record) -> bool
    ensures { result ≡ good_record r }
{
    is_operation(r) & is_return_kind(r) & is_condition(r) & good_kinds(r) & good_registers(r)
}

pub fn is_panic(r: Record) -> bool
    ensures { result ≡ is_panic r }
{
    (r.operation == Operation::Ret as u8) & (r.return_kind == ReturnKind::Panic as u8)
}

pub fn is_nop(r: Record) -> bool
    ensures { result ≡ is_nop r }
{
    r.operation == Operation::Nop as u8
}

pub fn is_arithmetic(r: Record) -> bool
    ensures { result ≡ is_arithmetic r }
{
    (r.operation == Operation::Add as u8) | (r.operation == Operation::Sub as u8)
}

// Refusal 3 of decode. The last three say whether execution has ended, an exception is pending, and decode sets some flag. What a panic and a nop record are has
// their operation, and a panic's return kind, in its list. Few tests at a time: after one test of all the compiler would not know what holds of each field, and
// operands would test the kept record again.
#[tactic(auto, unfolding(crate::specs::Record::bad_records))]
pub fn bad_records(r: Records, ended: bool, pending: bool, flagged: bool) -> bool
    ensures { result ≡ bad_records r ended pending flagged }
{
    let plain = r.plain;
    let panic = r.panic;
    let nop = r.nop;
    if !(is_operation(plain) & is_return_kind(plain) & is_condition(plain)) {
        return true;
    }
    if !is_panic(panic) | !is_condition(panic) {
        return true;
    }
    if !is_nop(nop) | !is_return_kind(nop) | !is_condition(nop) {
        return true;
    }
    if !good_kinds(plain) {
        return true;
    }
    if !good_kinds(panic) {
        return true;
    }
    if !good_kinds(nop) {
        return true;
    }
    if !good_registers(plain) {
        return true;
    }
    if !good_registers(panic) {
        return true;
    }
    if !good_registers(nop) {
        return true;
    }
    (ended & !(is_nop(plain) & !flagged)) | (pending & !is_panic(plain))
}
