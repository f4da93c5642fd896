// The operands that an instruction works on.
ghost use Rattle.std.specs.Prelude.{◌≡◌};
ghost use Rattle.addressing.specs.Sources.{first_source, sources_of, pointer_refused};

use crate::{PrimitiveValue, Sources};
use records::kinds::OperandKind;
use records::{Record, checks};
use u256::U256;

// By the source kind: the register, the immediate, or what was read; a nop reads nothing.
fn first_source(r: Record, register: PrimitiveValue, read: PrimitiveValue) -> PrimitiveValue
    ensures { result ≡ first_source r register read.value read.is_pointer }
{
    match OperandKind::try_from(r.source_kind) {
        Ok(OperandKind::Register) => register,
        Ok(OperandKind::Immediate) => PrimitiveValue {
            value: U256::from(u64::from(r.imm_0)),
            is_pointer: false,
        },
        _ if checks::is_nop(r) => PrimitiveValue {
            value: u256::empty_word(),
            is_pointer: false,
        },
        _ => read,
    }
}

#[tactic(auto, unfolding(crate::specs::Sources::sources_of))]
pub fn sources(r: Record, words: [U256; 15], pointers: [bool; 15], read: PrimitiveValue) -> Sources
    ensures { result ≡ sources_of r words pointers read.value read.is_pointer }
{
    let register = PrimitiveValue {
        value: registers::select(words, r.src0),
        is_pointer: registers::select_pointer(pointers, r.src0),
    };
    let second = PrimitiveValue {
        value: registers::select(words, r.src1),
        is_pointer: registers::select_pointer(pointers, r.src1),
    };
    let first = first_source(r, register, read);
    if r.swap {
        Sources {
            src0: second,
            src1: first,
        }
    } else {
        Sources {
            src0: first,
            src1: second,
        }
    }
}

// Refusal 6.
pub fn pointer_refused(kernel: bool, r: Record, p0: bool, p1: bool) -> bool
    ensures { result ≡ pointer_refused kernel r p0 p1 }
{
    !kernel & ((p0 & !r.src0_may_be_pointer) | (p1 & !r.src1_may_be_pointer))
}
