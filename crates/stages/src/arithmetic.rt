// Add and sub, after the Rust's `add.rs`, `sub.rs` and `perform_dst0_update`.
ghost use Rattle.std.specs.Prelude.{◌≡◌, if◌then◌else◌};
ghost use Rattle.stages.specs.ByOperation.{arithmetic_of};

use crate::{ExecuteAnswer, Executed, Staged, State, helpers};
use addressing::PrimitiveValue;
use operations::{arithmetic, time};
use records::Settings;
use refusal::Refusal;
use u256::U256;

// No register where the result goes to memory.
fn register(stored: bool, n: u8) -> u8
    ensures { result ≡ (if stored then 0 else n) }
{
    if stored { 0 } else { n }
}

impl State {
    #[tactic(auto, unfolding(crate::specs::ByOperation::arithmetic_of, crate::specs::Arithmetic::arithmetic_done))]
    pub(crate) fn arithmetic(self, settings: Settings, a: U256, b: U256) -> Executed
        ensures { result ≡ arithmetic_of 16 settings a b self }
    {
        let kept = self.kept;
        let instruction = kept.instruction;
        let location = kept.write;
        let stored = helpers::is_stored(location);
        if self.is_late(settings) {
            return self.refused(Refusal::Above32Bits);
        }
        let result = arithmetic::result(instruction.operation, a, b);
        let word = result.0;
        let old = self.flags;
        let flags = arithmetic::flags_after(instruction.set_flags, old, result);
        let pc = time::next_pc(self.current.pc, self.is_ended());
        let value = PrimitiveValue {
            value: word,
            is_pointer: false,
        };
        let write = helpers::write_of(location, value);
        let moved = self.finish(settings).moved(pc);
        let next = moved.written(flags, register(stored, instruction.dst0), word);
        Staged {
            state: next,
            answer: Ok(ExecuteAnswer { write, event: None }),
        }
    }
}
