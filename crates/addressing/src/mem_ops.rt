// Where an operand lies, after the Rust's `mem_ops.rs`. Kinds are a record's numbers: one that is in no list has to be answered too, and has no location. The
// stack page and sp are two parameters: a struct of both would be made anew for the destination, whose page is the same and whose sp is not.
ghost use Rattle.std.specs.Prelude.{◌≡◌, ◌%◌, ◌^◌, if◌then◌else◌, nat_le};
ghost use Rattle.registers.specs.Registers.{register_of};
ghost use Rattle.addressing.specs.Address.{location_in, vaddr_of, is_stack_kind, lacks_stack_page, write_time, lacks_write_time, source_at, destination_at, source_read, places_of};

use crate::{Located, Location, MemoryType, Places};
use records::kinds::OperandKind;
use records::{Record, checks};
use u256::U256;

// The low 16 bits of the register plus the immediate.
pub fn vaddr(register: U256, imm: u16) -> u16
    ensures { result ≡ vaddr_of 16 register imm }
{
    register.low_u16().wrapping_add(imm)
}

pub fn is_stack_kind(kind: u8) -> bool
    ensures { result ≡ is_stack_kind kind }
{
    matches!(
        OperandKind::try_from(kind),
        Ok(OperandKind::PushPop | OperandKind::StackOffset | OperandKind::AbsoluteStack)
    )
}

// A stack kind, and a stack page of more than 32 bits.
pub fn lacks_stack_page(r: Record, base: u32) -> bool
    ensures { result ≡ lacks_stack_page r base }
{
    // The page first: it decides for every record but those on the last base page.
    if base < 0xffff_ffff {
        return false;
    }
    is_stack_kind(r.source_kind) | is_stack_kind(r.destination_kind)
}

// Add and sub alone form the time of a write. Modulo 2^32: where a larger sum is looked at, operands has refused it.
pub fn wrapping_write_time(r: Record, time: u32) -> u32
    ensures { result ≡ write_time r time % 2 ^ 32 }
{
    if checks::is_arithmetic(r) {
        time.wrapping_add(3)
    } else {
        0
    }
}

// A stack destination, and a write's time of more than 32 bits.
pub fn lacks_write_time(r: Record, time: u32) -> bool
    ensures { result ≡ lacks_write_time r time }
{
    // The time first: it decides for every record but at the last three times.
    if 0xffff_fffc < time {
        return checks::is_arithmetic(r) & is_stack_kind(r.destination_kind);
    }
    false
}

fn at(memory_type: MemoryType, page: u32, index: u16, time: u32) -> Location
    ensures { result ≡ location_in memory_type page index time }
{
    Location::At {
        memory_type: memory_type as u8,
        index,
        page,
        time,
    }
}

// A source: push/pop is a pop.
#[tactic(auto, unfolding(crate::specs::Address::source_at))]
pub fn source_at(
    kind: u8,
    stack_page: u32,
    code_page: u32,
    sp: u16,
    vaddr: u16,
    time: u32,
) -> Located
    ensures { result ≡ source_at 16 kind stack_page code_page sp vaddr time }
{
    let popped = sp.wrapping_sub(vaddr);
    match OperandKind::try_from(kind) {
        Ok(OperandKind::PushPop) => Located {
            location: at(MemoryType::Stack, stack_page, popped, time),
            sp: popped,
        },
        Ok(OperandKind::StackOffset) => Located {
            location: at(MemoryType::Stack, stack_page, popped, time),
            sp,
        },
        Ok(OperandKind::CodePage) => Located {
            location: at(MemoryType::Code, code_page, vaddr, time),
            sp,
        },
        Ok(OperandKind::AbsoluteStack) => Located {
            location: at(MemoryType::Stack, stack_page, vaddr, time),
            sp,
        },
        _ => Located {
            location: Location::None,
            sp,
        },
    }
}

// A destination: push/pop is a push. Kinds 1 and 4 are refused before. Not one function with the source's: a pop reads where sp has moved to, a push writes before it moves.
#[tactic(auto, unfolding(crate::specs::Address::destination_at))]
pub fn destination_at(kind: u8, stack_page: u32, sp: u16, vaddr: u16, time: u32) -> Located
    ensures { result ≡ destination_at 16 kind stack_page sp vaddr time }
{
    let below = sp.wrapping_sub(vaddr);
    let above = sp.wrapping_add(vaddr);
    match OperandKind::try_from(kind) {
        Ok(OperandKind::PushPop) => Located {
            location: at(MemoryType::Stack, stack_page, sp, time),
            sp: above,
        },
        Ok(OperandKind::StackOffset) => Located {
            location: at(MemoryType::Stack, stack_page, below, time),
            sp,
        },
        Ok(OperandKind::AbsoluteStack) => Located {
            location: at(MemoryType::Stack, stack_page, vaddr, time),
            sp,
        },
        _ => Located {
            location: Location::None,
            sp,
        },
    }
}

// Nop reads nothing.
fn read_of(nop: bool, source: Location) -> Location
    ensures { result ≡ source_read nop source }
{
    if nop { Location::None } else { source }
}

// The vaddr of an operand in memory, and 0 of one that is not: nobody looks at that, so that no register has to be picked for it.
// By a bound, which asks for both kinds that are not in memory at once.
fn memory_vaddr(kind: u8, registers: [U256; 15], n: u8, imm: u16) -> u16
    ensures { result ≡ (if nat_le kind 1 then 0 else vaddr_of 16 (register_of registers n) imm) }
{
    if kind <= OperandKind::Immediate as u8 {
        return 0;
    }
    vaddr(registers::select(registers, n), imm)
}

// Source first, then destination on the changed sp; each at its time.
#[tactic(auto, unfolding(crate::specs::Address::places_of, crate::specs::Address::source_at, crate::specs::Address::destination_at))]
pub fn places(
    r: Record,
    registers: [U256; 15],
    stack_page: u32,
    code_page: u32,
    sp: u16,
    source_time: u32,
    destination_time: u32,
) -> Places
    ensures { result ≡ places_of 16 r registers stack_page code_page sp source_time destination_time }
{
    let read = memory_vaddr(r.source_kind, registers, r.src0, r.imm_0);
    let written = memory_vaddr(r.destination_kind, registers, r.dst0, r.imm_1);
    let source = source_at(r.source_kind, stack_page, code_page, sp, read, source_time);
    let kind = r.destination_kind;
    let destination = destination_at(kind, stack_page, source.sp, written, destination_time);
    let from = source.location;
    let to = destination.location;
    Places {
        source: read_of(checks::is_nop(r), from),
        destination: to,
        sp: destination.sp,
    }
}
