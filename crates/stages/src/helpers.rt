// What the operations of execute share, after the Rust's `helpers.rs`.
ghost use Rattle.std.specs.Prelude.{◌≡◌, ◌+◌, ◌^◌, ◌<◌, false};
ghost use Rattle.operations.specs.Time.{time_after};
ghost use Rattle.stages.specs.State.{stage_number, is_ended, bad_store, out_of_turn};
ghost use Rattle.stages.specs.Effects.{no_flags, finished_state, moved_state, written_state, switched_state};
ghost use Rattle.stages.specs.Checks.{late_in};
ghost use Rattle.stages.specs.Helpers.{finished_in, is_stored, write_of};
ghost use Rattle.stages.specs.ByOperation.{nop_of};

use crate::{ExecuteAnswer, Executed, Kept, Stage, Staged, State, Write};
use addressing::{Location, PrimitiveValue};
use frame::{Frame, PubdataCost};
use operations::time;
use records::{Flags, Record, Settings, sizes};
use refusal::Refusal;
use u256::U256;

// The branch of the operation that calls it has tested that the time fits (D62): a test here would be made twice. So with State::finish.
pub(crate) fn time_after(time: u32, step: u32, ended: bool) -> u32
    requires { ended ≡ false → time + step < 2 ^ 32 }
    ensures { result ≡ time_after time step ended }
{
    if ended { time } else { time + step }
}

pub(crate) fn no_flags() -> Flags
    ensures { result ≡ no_flags }
{
    Flags::default()
}

pub(crate) fn is_stored(location: Location) -> bool
    ensures { result ≡ is_stored location }
{
    matches!(location, Location::At { .. })
}

// A write carries the kept time, whatever it is.
pub(crate) fn write_of(location: Location, value: PrimitiveValue) -> Option<Write>
    ensures { result ≡ write_of location value }
{
    let Location::At {
        memory_type,
        index,
        page,
        time,
    } = location
    else {
        return None;
    };
    Some(Write {
        memory_type,
        index,
        page,
        time,
        value,
    })
}

impl State {
    // The same state, each narrow field copied by itself: several in one piece cost shifts in each cycle. So whoever hands a state on from one cycle to the next hands
    // it on apart. Inline always: where the compiler makes it a call, the state goes through memory, and a cycle takes four times as long.
    #[inline(always)]
    pub fn apart(mut self) -> State
        ensures { result ≡ self }
    {
        let f = self.current;
        let flags = self.flags;
        let previous_code_memory_page = self.previous_code_memory_page;
        let timestamp = self.timestamp;
        let monotonic_cycle_counter = self.monotonic_cycle_counter;
        let depth = self.depth;
        let previous_super_pc = self.previous_super_pc;
        let stage = self.stage;
        let pending_exception = self.pending_exception;
        let current = f.apart();
        let apart = Flags {
            overflow_or_less_than_flag: flags.overflow_or_less_than_flag,
            equality_flag: flags.equality_flag,
            greater_than_flag: flags.greater_than_flag,
        };
        self.current = current;
        self.flags = apart;
        self.previous_code_memory_page = previous_code_memory_page;
        self.timestamp = timestamp;
        self.monotonic_cycle_counter = monotonic_cycle_counter;
        self.depth = depth;
        self.previous_super_pc = previous_super_pc;
        self.stage = stage;
        self.pending_exception = pending_exception;
        self
    }

    // Ready for the next cycle.
    #[tactic(auto, unfolding(crate::specs::Effects::finished_state))]
    pub(crate) fn finished(self, time: u32, counter: u32) -> State
        ensures { result ≡ finished_state self time counter }
    {
        let kept = Kept {
            instruction: Record::default(),
            write: Location::None,
        };
        let mut next = self.apart();
        next.timestamp = time;
        next.monotonic_cycle_counter = counter;
        next.kept = kept;
        next.stage = Stage::Fetch as u8;
        next
    }

    #[tactic(auto, unfolding(crate::specs::Effects::moved_state, frame::specs::Fields::with_pc))]
    pub(crate) fn moved(self, pc: u16) -> State
        ensures { result ≡ moved_state self pc }
    {
        let mut next = self.apart();
        next.current.pc = pc;
        next
    }

    #[tactic(auto, unfolding(crate::specs::Effects::written_state))]
    pub(crate) fn written(self, flags: Flags, n: u8, word: U256) -> State
        ensures { result ≡ written_state self flags n word }
    {
        let old_words = self.registers;
        let old_pointers = self.pointers;
        let words = registers::update(old_words, n, word);
        let pointers = registers::update(old_pointers, n, false);
        let mut next = self.apart();
        next.registers = words;
        next.pointers = pointers;
        next.flags = flags;
        next
    }

    #[tactic(auto, unfolding(crate::specs::Effects::switched_state))]
    pub(crate) fn switched(self, f: Frame, depth: u32, flags: Flags, counter: PubdataCost) -> State
        ensures { result ≡ switched_state self f depth flags counter }
    {
        let mut next = self.apart();
        next.current = f;
        next.depth = depth;
        next.flags = flags;
        next.pubdata_revert_counter = counter;
        next
    }

    pub(crate) fn is_ended(self) -> bool
        ensures { result ≡ is_ended self }
    {
        self.depth == 0
    }

    // Refusal 1 of every stage.
    pub(crate) fn has_bad_store(self, settings: Settings, store: &[u32]) -> bool
        ensures { result ≡ bad_store settings self store.now }
    {
        sizes::bad_sizes(settings.depth_limit, self.depth, store.len())
    }

    // Refusal 2 of every stage.
    pub(crate) fn is_out_of_turn(self, stage: Stage) -> bool
        ensures { result ≡ out_of_turn (stage_number stage) self }
    {
        self.stage != stage as u8
    }

    // Refusal 14 of every operation.
    pub(crate) fn is_late(self, settings: Settings) -> bool
        ensures { result ≡ late_in settings self }
    {
        time::is_late(
            self.timestamp,
            settings.time_step,
            self.monotonic_cycle_counter,
            self.is_ended(),
        )
    }

    // Of any stage. A cycle's refusal names its stage, and a benchmark's has a charge: three types, and three functions.
    pub(crate) fn refused<A>(self, refusal: Refusal) -> Staged<A>
        ensures { result ≡ record { state = self; answer = Err refusal } }
    {
        Staged {
            state: self.apart(),
            answer: Err(refusal),
        }
    }

    // The time and the cycle counter after the cycle.
    pub(crate) fn finish(self, settings: Settings) -> State
        requires { late_in settings self ≡ false }
        ensures { result ≡ finished_in settings self }
    {
        let after = time_after(self.timestamp, settings.time_step, self.is_ended());
        let counter = self.monotonic_cycle_counter + 1;
        self.finished(after, counter)
    }

    // Nop sets pc only.
    #[tactic(auto, unfolding(crate::specs::ByOperation::nop_of, crate::specs::Helpers::nop_done))]
    pub(crate) fn nop(self, settings: Settings) -> Executed
        ensures { result ≡ nop_of 16 settings self }
    {
        if self.is_late(settings) {
            return self.refused(Refusal::Above32Bits);
        }
        let pc = time::next_pc(self.current.pc, self.is_ended());
        let next = self.finish(settings).moved(pc);
        Staged {
            state: next,
            answer: Ok(ExecuteAnswer {
                write: None,
                event: None,
            }),
        }
    }
}
