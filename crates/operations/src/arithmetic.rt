// Add and sub. The operation is a record's number, of which execute asks with 1 and 2 alone; any other has to be answered too, and subtracts.
ghost use Rattle.std.specs.Prelude.{◌≡◌};
ghost use Rattle.operations.specs.Arithmetic.{result_of, flags_after};

use records::Flags;
use records::kinds::Operation;
use u256::U256;

pub fn result(operation: u8, a: U256, b: U256) -> (U256, bool)
    ensures { result ≡ result_of operation a b }
{
    if operation == Operation::Add as u8 {
        a.overflowing_add(b)
    } else {
        a.overflowing_sub(b)
    }
}

#[tactic(auto, unfolding(crate::specs::Arithmetic::flags_after))]
pub fn flags_after(set: bool, old: Flags, res: (U256, bool)) -> Flags
    ensures { result ≡ flags_after set old res }
{
    let (value, overflow) = res;
    let zero = value.is_zero();
    if set {
        Flags {
            overflow_or_less_than_flag: overflow,
            equality_flag: zero,
            greater_than_flag: !zero & !overflow,
        }
    } else {
        old
    }
}
