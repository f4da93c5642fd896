// Decode's rules: price, error flags, conditions, and the record that is kept.
ghost use Rattle.std.specs.Prelude.{◌≡◌, if◌then◌else◌};
ghost use Rattle.decoding.specs.Charge.{price_of, error_flags, any_error};
ghost use Rattle.decoding.specs.Condition.{condition_holds};

use crate::ErrorFlags;
use frame::Frame;
use records::kinds::Condition;
use records::{Flags, Record};

// Nothing is paid when execution has ended.
pub fn price_of(ended: bool, price: u32) -> u32
    ensures { result ≡ price_of ended price }
{
    if ended { 0 } else { price }
}

#[tactic(auto, unfolding(crate::specs::Charge::error_flags))]
pub fn error_flags(f: Frame, depth: u32, limit: u32, plain: Record) -> ErrorFlags
    ensures { result ≡ error_flags f depth limit plain }
{
    let price = price_of(depth == 0, plain.price);
    let kernel = f.is_kernel_mode();
    ErrorFlags {
        invalid_opcode: plain.explicit_panic,
        not_enough_ergs: f.ergs_remaining < price,
        privilaged_access_not_from_kernel: plain.kernel_only & !kernel,
        write_in_static_context: !plain.allowed_when_static & f.is_static,
        callstack_is_full: depth == limit,
    }
}

// The full callstack and the lack of ergs by themselves: where neither holds the compiler then knows it, and a near call does not test its depth again.
pub fn any_error(e: ErrorFlags) -> bool
    ensures { result ≡ any_error e }
{
    if e.invalid_opcode | e.privilaged_access_not_from_kernel | e.write_in_static_context {
        return true;
    }
    if e.callstack_is_full {
        return true;
    }
    e.not_enough_ergs
}

// A record's number, since one that is in no list has to be answered too: it holds nowhere.
pub fn condition_holds(condition: u8, flags: Flags) -> bool
    ensures { result ≡ condition_holds condition flags }
{
    match Condition::try_from(condition) {
        Ok(Condition::Always) => true,
        Ok(Condition::Gt) => flags.greater_than_flag,
        Ok(Condition::Lt) => flags.overflow_or_less_than_flag,
        Ok(Condition::Eq) => flags.equality_flag,
        Ok(Condition::Ge) => flags.greater_than_flag | flags.equality_flag,
        Ok(Condition::Le) => flags.overflow_or_less_than_flag | flags.equality_flag,
        Ok(Condition::Ne) => !flags.equality_flag,
        Ok(Condition::GtOrLt) => flags.greater_than_flag | flags.overflow_or_less_than_flag,
        Err(_) => false,
    }
}

// The same record, field by field (a choice between whole structs: the listing takes 124.3 instructions and not 98.7, docs/SPEED.md).
fn fields(r: Record) -> Record
    ensures { result ≡ r }
{
    Record {
        operation: r.operation,
        return_kind: r.return_kind,
        condition: r.condition,
        source_kind: r.source_kind,
        destination_kind: r.destination_kind,
        src0: r.src0,
        src1: r.src1,
        dst0: r.dst0,
        imm_0: r.imm_0,
        imm_1: r.imm_1,
        price: r.price,
        explicit_panic: r.explicit_panic,
        kernel_only: r.kernel_only,
        allowed_when_static: r.allowed_when_static,
        swap: r.swap,
        set_flags: r.set_flags,
        to_label: r.to_label,
        src0_may_be_pointer: r.src0_may_be_pointer,
        src1_may_be_pointer: r.src1_may_be_pointer,
    }
}

pub fn either(first: bool, a: Record, b: Record) -> Record
    ensures { result ≡ (if first then a else b) }
{
    if first { fields(a) } else { fields(b) }
}

// The record that is kept: where neither mask is called for, one test. Three records and not `Records`: of that the listing's cycle takes 124.3 instructions and not 98.7.
pub fn masked(flagged: bool, holds: bool, plain: Record, panic: Record, nop: Record) -> Record
    ensures { result ≡ (if flagged then panic else (if holds then plain else nop)) }
{
    if flagged | !holds {
        either(flagged, panic, nop)
    } else {
        fields(plain)
    }
}
