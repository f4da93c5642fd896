// Execute, from the Rust's `cycle`.
ghost use Rattle.std.specs.Prelude.{◌≡◌, if◌then◌else◌};
ghost use Rattle.stages.specs.Execute.{execute_refusal, execute_of, execute_store};
ghost use Rattle.refusal.specs.Refusal.{refusal_number};
ghost use Rattle.stages.specs.Answers.{execute_case};
ghost use Rattle.stages.specs.Tells.{execute_tells};

use crate::{ExecuteInput, Executed, Stage, State};
use addressing::{PrimitiveValue, select};
use records::kinds::Operation;
use records::{Settings, checks};
use refusal::Refusal;

const NOP: u8 = Operation::Nop as u8;

const ADD: u8 = Operation::Add as u8;

const SUB: u8 = Operation::Sub as u8;

const NEAR_CALL: u8 = Operation::NearCall as u8;

impl State {
    pub fn execute(self, settings: Settings, store: &mut [u32], input: ExecuteInput) -> Executed
        ensures { (result ≡ execute_of 16 settings input self store.old)
            × (store.new ≡ execute_store 16 settings input self store.old)
            × (refusal_number result.answer ≡ execute_refusal 16 settings input self store.old)
            × (execute_case result.answer ≡ execute_tells 16 settings input self store.old) }
    {
        let kept = self.kept;
        let instruction = kept.instruction;
        let words = self.registers;
        let pointers = self.pointers;
        let read = PrimitiveValue {
            value: input.word,
            is_pointer: input.pointer,
        };
        let sources = select::sources(instruction, words, pointers, read);
        let src0 = sources.src0;
        let src1 = sources.src1;
        let operation = instruction.operation;
        let sizes = self.has_bad_store(settings, store);
        let bad = !checks::good_record(instruction);
        let held = select::pointer_refused(
            self.current.is_kernel_mode(),
            instruction,
            src0.is_pointer,
            src1.is_pointer,
        );
        let turn = self.is_out_of_turn(Stage::Execute);
        let other = operation == Operation::Other as u8;
        // One branch, and the list inside it (D62), as in decode.
        if sizes | turn | bad | other | held {
            return self.refused(refusal::first_after(
                &[
                    (sizes, Refusal::Sizes),
                    (turn, Refusal::Turn),
                    (bad, Refusal::Record),
                    (other, Refusal::Operation),
                ],
                Refusal::Pointer,
            ));
        }
        let a = src0.value;
        let b = src1.value;
        // By the numbers' names: of `TryFrom` the proof is not told which name of `Add | Sub` it is, and an arm for each is a second caller, of which the opaque cycle takes
        // 1,423 instructions and not 454.
        match operation {
            NOP => self.nop(settings),
            ADD | SUB => self.arithmetic(settings, a, b),
            NEAR_CALL => self.near_call(settings, a.low_u32(), store),
            _ => self.ret(settings, store),
        }
    }
}
