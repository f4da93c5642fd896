// Near call, after the Rust's `near_call.rs`.
ghost use Rattle.std.specs.Prelude.{◌≡◌, false};
ghost use Rattle.stages.specs.State.{bad_store};
ghost use Rattle.stages.specs.ByOperation.{near_call_of, near_call_store};

use crate::{Event, ExecuteAnswer, Executed, Staged, State, helpers};
use operations::{near_call, time};
use records::Settings;
use refusal::Refusal;

impl State {
    // The caller's row is written at the first free row. Execute has tested the store (D62): a test here would be made twice.
    #[tactic(auto, using(crate::proofs::NearCallLaws::room), unfolding(crate::specs::ByOperation::near_call_of, crate::specs::NearCall::near_call_done, crate::specs::ByOperation::near_call_store))]
    pub(crate) fn near_call(self, settings: Settings, want: u32, store: &mut [u32]) -> Executed
        requires { bad_store settings self store.old ≡ false }
        ensures { (result ≡ near_call_of 16 settings want self) × (store.new ≡ near_call_store 16 settings want self store.old) }
    {
        let kept = self.kept;
        let instruction = kept.instruction;
        let depth = self.depth;
        let full = depth == settings.depth_limit;
        // One branch, and the list inside it (D62), as in decode.
        if full | self.is_late(settings) {
            return self.refused(refusal::first_after(
                &[(full, Refusal::DepthLimit)],
                Refusal::Above32Bits,
            ));
        }
        let f = self.current;
        let wanted = near_call::wanted_ergs(want, settings.near_call_multiplier);
        let passed = near_call::passed_ergs(wanted, f.ergs_remaining);
        let pc = time::next_pc(f.pc, depth == 0);
        let caller = near_call::caller_frame(f, f.ergs_remaining - passed, pc);
        let _ = frame::save_frame(store, depth, caller);
        let opened = near_call::opened_frame(
            caller,
            passed,
            instruction.imm_0,
            instruction.imm_1,
            self.monotonic_cycle_counter,
        );
        let reverts = self.pubdata_revert_counter;
        let base = self.finish(settings);
        let next = base.switched(opened, depth + 1, helpers::no_flags(), reverts);
        Staged {
            state: next,
            answer: Ok(ExecuteAnswer {
                write: None,
                event: Some(Event::Opened),
            }),
        }
    }
}
