// Decode, from the Rust's `read_and_decode`.
ghost use Rattle.std.specs.Prelude.{◌≡◌, ◌-◌, ◌≤◌, min, false};
ghost use Rattle.stages.specs.Decode.{decoded_state, decode_refusal, decode_of};
ghost use Rattle.refusal.specs.Refusal.{refusal_number};
ghost use Rattle.stages.specs.Answers.{decode_case};
ghost use Rattle.stages.specs.Tells.{decode_tells};

use crate::{DecodeAnswer, Decoded, Kept, Stage, Staged, State};
use addressing::Location;
use decoding::{decode, fetch};
use records::{Record, Records, Settings, checks};
use refusal::Refusal;

// What decode charges, and the ergs that are left.
#[derive(Clone, Copy)]
pub(crate) struct Paid {
    pub charge: u32,
    pub ergs: u32,
}

// Where no flag is set the price is covered, and nothing has to be tested. In a branch of its own the compiler joins that with the choice of the record. With a
// test in place of the requires the listing's cycle takes 136 instructions and not 101 (docs/SPEED.md).
fn pay(flagged: bool, price: u32, held: u32) -> Paid
    requires { flagged ≡ false → price ≤ held }
    ensures { result ≡ record { charge = min price held; ergs = held - price } }
{
    if flagged {
        Paid {
            charge: price.min(held),
            ergs: held.saturating_sub(price),
        }
    } else {
        Paid {
            charge: price,
            ergs: held - price,
        }
    }
}

impl State {
    // The delayed changes show from here, with the ergs and the kept record.
    #[tactic(auto, unfolding(crate::specs::Decode::decoded_state, frame::specs::Fields::with_ergs))]
    fn decoded(self, ergs: u32, instruction: Record) -> State
        ensures { result ≡ decoded_state self ergs instruction }
    {
        let (word, super_pc) = match self.fetched_word {
            Some(word) => (word, fetch::super_pc(self.current.pc)),
            None => (self.previous_code_word, self.previous_super_pc),
        };
        let page = self.current.code_page;
        let kept = Kept {
            instruction,
            write: Location::None,
        };
        let mut next = self.apart();
        next.current.ergs_remaining = ergs;
        next.previous_code_word = word;
        next.previous_super_pc = super_pc;
        next.previous_code_memory_page = page;
        next.pending_exception = false;
        next.fetched_word = None;
        next.kept = kept;
        next.stage = Stage::Operands as u8;
        next
    }

    #[tactic(auto, using(decoding::proofs::ChargeLaws::covered), unfolding(crate::specs::Decode::decode_of, crate::specs::Decode::decode_done, decoding::specs::Charge::error_flags))]
    pub fn decode(self, settings: Settings, store: &[u32], records: Records) -> Decoded
        ensures { (result ≡ decode_of settings records self store.now)
            × (refusal_number result.answer ≡ decode_refusal settings records self store.now)
            × (decode_case result.answer ≡ decode_tells settings records self store.now) }
    {
        let plain = records.plain;
        let panic = records.panic;
        let nop = records.nop;
        let current = self.current;
        let flags = self.flags;
        let ended = self.is_ended();
        let errors = decode::error_flags(current, self.depth, settings.depth_limit, plain);
        let flagged = decode::any_error(errors);
        let sizes = self.has_bad_store(settings, store);
        let bad = checks::bad_records(records, ended, self.pending_exception, flagged);
        let turn = self.is_out_of_turn(Stage::Decode);
        // One branch on whether some check holds, and the list inside it (D62): by the number of the first, the listing's cycle takes 167 instructions and not 101
        // (docs/SPEED.md).
        if sizes | turn | bad {
            let refusal = refusal::first_after(
                &[(sizes, Refusal::Sizes), (turn, Refusal::Turn)],
                Refusal::Record,
            );
            return self.refused(refusal);
        }
        let price = decode::price_of(ended, plain.price);
        let paid = pay(flagged, price, current.ergs_remaining);
        let charge = paid.charge;
        let holds = decode::condition_holds(plain.condition, flags);
        let next = self.decoded(paid.ergs, decode::masked(flagged, holds, plain, panic, nop));
        Staged {
            state: next,
            answer: Ok(DecodeAnswer { charge, errors }),
        }
    }
}
