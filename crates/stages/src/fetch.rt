// The code query and fetch, from the Rust's `cycle.rs`.
ghost use Rattle.std.specs.Prelude.{◌≡◌};
ghost use Rattle.stages.specs.Fetch.{code_wanted, query_of, location_if, fetched_state, code_answer, fetch_refusal, fetch_of};
ghost use Rattle.refusal.specs.Refusal.{refusal_number};
ghost use Rattle.stages.specs.Answers.{fetch_case, location_case};
ghost use Rattle.stages.specs.Tells.{query_tells, fetch_tells};

use crate::{FetchAnswer, Fetched, Stage, Staged, State};
use addressing::{Location, MemoryType};
use decoding::fetch;
use records::Settings;
use refusal::Refusal;
use u256::U256;

fn query_of(wanted: bool, page: u32, index: u16, time: u32) -> Location
    ensures { result ≡ location_if wanted page index time }
{
    if wanted {
        Location::At {
            memory_type: MemoryType::Code as u8,
            index,
            page,
            time,
        }
    } else {
        Location::None
    }
}

fn code_answer(ended: bool, pending: bool, bits: u64) -> FetchAnswer
    ensures { result ≡ code_answer ended pending bits }
{
    if ended {
        FetchAnswer::Nop
    } else if pending {
        FetchAnswer::Exception
    } else {
        FetchAnswer::Code(bits)
    }
}

impl State {
    #[tactic(auto, unfolding(crate::specs::Fetch::fetched_state))]
    fn fetched(self, read: Option<U256>) -> State
        ensures { result ≡ fetched_state self read }
    {
        let mut next = self.apart();
        next.fetched_word = read;
        next.stage = Stage::Decode as u8;
        next
    }

    fn wants_code(self) -> bool
        ensures { result ≡ code_wanted self }
    {
        let changed = fetch::code_changed(
            self.current.code_page,
            self.previous_code_memory_page,
            fetch::super_pc(self.current.pc),
            self.previous_super_pc,
        );
        !self.is_ended() & changed
    }

    // Whether a code read is wanted, from where and when.
    #[tactic(auto, unfolding(crate::specs::Fetch::query_of))]
    pub fn code_query(self) -> Location
        ensures { (result ≡ query_of self) × (location_case result ≡ query_tells self) }
    {
        let page = self.current.code_page;
        let index = fetch::super_pc(self.current.pc);
        query_of(self.wants_code(), page, index, self.timestamp)
    }

    // The word is the one that the query asked for, and is not looked at where it asked for none.
    #[tactic(auto, unfolding(crate::specs::Fetch::fetch_of, crate::specs::Fetch::fetch_done))]
    pub fn fetch(self, settings: Settings, store: &[u32], word: U256) -> Fetched
        ensures { (result ≡ fetch_of settings word self store.now)
            × (refusal_number result.answer ≡ fetch_refusal settings self store.now)
            × (fetch_case result.answer ≡ fetch_tells settings word self store.now) }
    {
        let ended = self.is_ended();
        let pending = self.pending_exception;
        let sizes = self.has_bad_store(settings, store);
        let turn = self.is_out_of_turn(Stage::Fetch);
        // One branch, and the list inside it (D62), as in decode.
        if sizes | turn | (ended & pending) {
            let refusal = refusal::first_after(
                &[(sizes, Refusal::Sizes), (turn, Refusal::Turn)],
                Refusal::EndedPending,
            );
            return self.refused(refusal);
        }
        let pc = self.current.pc;
        let previous = self.previous_code_word;
        let read = self.wants_code().then_some(word);
        let bits = fetch::code_bits(read.unwrap_or(previous), fetch::sub_pc(pc));
        let next = self.fetched(read);
        Staged {
            state: next,
            answer: Ok(code_answer(ended, pending, bits)),
        }
    }
}
