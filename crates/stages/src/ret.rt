// Return from a local frame, after the Rust's `ret.rs` and `finish_frame`.
ghost use Rattle.std.specs.Prelude.{◌≡◌, false};
ghost use Rattle.stages.specs.State.{bad_store};
ghost use Rattle.stages.specs.Ret.{panic_flags};
ghost use Rattle.stages.specs.ByOperation.{close_of, return_of};

use crate::{Event, ExecuteAnswer, Executed, Staged, State};
use frame::Frame;
use operations::ret;
use operations::ret::Closing;
use records::kinds::ReturnKind;
use records::{Flags, Settings};
use refusal::Refusal;

fn panic_flags(panic: bool) -> Flags
    ensures { result ≡ panic_flags panic }
{
    Flags {
        overflow_or_less_than_flag: panic,
        ..Flags::default()
    }
}

impl State {
    // The caller is the frame of the top row.
    #[tactic(auto, unfolding(crate::specs::ByOperation::close_of, crate::specs::Ret::close_done, operations::specs::Ret::resumed_of))]
    fn close(self, settings: Settings, caller: Frame) -> Executed
        ensures { result ≡ close_of settings caller self }
    {
        let kept = self.kept;
        let instruction = kept.instruction;
        let f = self.current;
        let closed_cost = f.total_pubdata_spent;
        let reverts = self.pubdata_revert_counter;
        let ok = instruction.return_kind == ReturnKind::Ok as u8;
        let caller_cost = caller.total_pubdata_spent;
        let closing = Closing {
            caller,
            closed: f,
            spent: ret::pubdata_after(ok, caller_cost, closed_cost),
            reverted: ret::counter_after(ok, reverts, closed_cost),
        };
        if closing.is_refused(self.is_late(settings)) {
            return self.refused(closing.refusal());
        }
        let ergs = caller.ergs_remaining + f.ergs_remaining;
        let resumed = closing.resumed(instruction, ergs);
        let counter = ret::cost_of(closing.reverted);
        let flags = panic_flags(instruction.return_kind == ReturnKind::Panic as u8);
        let depth = self.depth.saturating_sub(1);
        let next = self
            .finish(settings)
            .switched(resumed, depth, flags, counter);
        Staged {
            state: next,
            answer: Ok(ExecuteAnswer {
                write: None,
                event: Some(Event::Closed(!ok)),
            }),
        }
    }

    // Execute has tested the store (D62), so that the row is not missing.
    pub(crate) fn ret(self, settings: Settings, store: &[u32]) -> Executed
        requires { bad_store settings self store.now ≡ false }
        ensures { result ≡ return_of 16 settings self store.now }
    {
        let depth = self.depth;
        let far = !self.current.is_local_frame;
        // One branch, and the list inside it (D62), as in decode.
        if far | (depth == 0) {
            return self.refused(refusal::first_after(
                &[(far, Refusal::FarReturn)],
                Refusal::NoCaller,
            ));
        }
        let row = frame::read_frame(store, depth.saturating_sub(1));
        match row {
            Ok(caller) => self.close(settings, caller),
            Err(error) => self.refused(Refusal::from(error)),
        }
    }
}
