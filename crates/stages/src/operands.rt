// Operands, from the Rust's `compute_addresses_and_select_operands`.
ghost use Rattle.std.specs.Prelude.{◌≡◌, false};
ghost use Rattle.stages.specs.Checks.{lacks_page_or_time};
ghost use Rattle.stages.specs.Operands.{places_in, addressed_state, operands_refusal, operands_of};
ghost use Rattle.refusal.specs.Refusal.{refusal_number};
ghost use Rattle.stages.specs.Answers.{operands_case};
ghost use Rattle.stages.specs.Tells.{operands_tells};

use crate::{Addressed, Kept, OperandsAnswer, Stage, Staged, State};
use addressing::{Location, Places, mem_ops};
use records::{Settings, checks};
use refusal::Refusal;

impl State {
    #[tactic(auto, unfolding(crate::specs::Operands::addressed_state, frame::specs::Fields::with_sp))]
    fn addressed(self, sp: u16, write: Location) -> State
        ensures { result ≡ addressed_state self sp write }
    {
        let old = self.kept;
        let instruction = old.instruction;
        let kept = Kept { instruction, write };
        let mut next = self.apart();
        next.current.sp = sp;
        next.kept = kept;
        next.stage = Stage::Execute as u8;
        next
    }

    // Refusal 14 of operands.
    fn lacks_page_or_time(self) -> bool
        ensures { result ≡ lacks_page_or_time self }
    {
        let kept = self.kept;
        let instruction = kept.instruction;
        mem_ops::lacks_stack_page(instruction, self.current.base_memory_page)
            | mem_ops::lacks_write_time(instruction, self.timestamp)
    }

    // Operands has tested that what is looked at of the stack page and of a write's time has 32 bits (D62).
    #[tactic(auto, using(crate::proofs::OperandsLaws::places_exact))]
    fn places(self) -> Places
        requires { lacks_page_or_time self ≡ false }
        ensures { result ≡ places_in 16 self }
    {
        let kept = self.kept;
        let instruction = kept.instruction;
        let registers = self.registers;
        mem_ops::places(
            instruction,
            registers,
            self.current.base_memory_page.wrapping_add(1),
            self.current.code_page,
            self.current.sp,
            self.timestamp,
            mem_ops::wrapping_write_time(instruction, self.timestamp),
        )
    }

    pub fn operands(self, settings: Settings, store: &[u32]) -> Addressed
        ensures { (result ≡ operands_of 16 settings self store.now)
            × (refusal_number result.answer ≡ operands_refusal settings self store.now)
            × (operands_case result.answer ≡ operands_tells 16 settings self store.now) }
    {
        let kept = self.kept;
        let instruction = kept.instruction;
        let sizes = self.has_bad_store(settings, store);
        let bad = !checks::good_record(instruction);
        let lacking = self.lacks_page_or_time();
        let turn = self.is_out_of_turn(Stage::Operands);
        // One branch, and the list inside it (D62), as in decode.
        if sizes | turn | bad | lacking {
            let refusal = refusal::first_after(
                &[
                    (sizes, Refusal::Sizes),
                    (turn, Refusal::Turn),
                    (bad, Refusal::Record),
                ],
                Refusal::Above32Bits,
            );
            return self.refused(refusal);
        }
        let places = self.places();
        let source = places.source;
        let destination = places.destination;
        let next = self.addressed(places.sp, destination);
        Staged {
            state: next,
            answer: Ok(OperandsAnswer {
                source,
                destination,
            }),
        }
    }
}
