// A whole cycle: the one place that calls the four stages, for all that run a list. Each stage is called once here, so that the compiler inlines all
// four in the caller's loop.
#![tactic(auto)]

ghost use Rattle.std.specs.Prelude.{◌≡◌, ℕ};
ghost use Rattle.cycle.specs.Cycle.{refused_at, cycle_of, cycle_store, cycle_refusal_number, cycle_number, cycle_charge};

use addressing::Location;
use records::{Records, Settings};
use refusal::Refusal;
use stages::{
    DecodeAnswer, ExecuteAnswer, ExecuteInput, FetchAnswer, OperandsAnswer, Stage, State,
};
use u256::U256;

// What a cycle is given besides the state and the store: the code word for fetch, the input of execute, and what all stages and decode are given.
#[derive(Clone, Copy)]
pub struct Input {
    pub code: U256,
    pub execute: ExecuteInput,
    pub settings: Settings,
    pub records: Records,
}

// The code read that was wanted, and the four answers.
#[derive(Clone, Copy)]
pub struct CycleAnswer {
    pub read: Location,
    pub fetch: FetchAnswer,
    pub decode: DecodeAnswer,
    pub operands: OperandsAnswer,
    pub execute: ExecuteAnswer,
}

// A refusal, and the stage that gave it.
#[derive(Clone, Copy, Debug, PartialEq, Eq)]
pub struct CycleRefusal {
    pub refusal: Refusal,
    pub stage: Stage,
}

#[derive(Clone, Copy)]
pub struct Cycled {
    pub state: State,
    pub answer: Result<CycleAnswer, CycleRefusal>,
}

fn refused_at(state: State, refusal: Refusal, stage: Stage) -> Cycled
    ensures { result ≡ refused_at state refusal stage }
{
    Cycled {
        state: state.apart(),
        answer: Err(CycleRefusal { refusal, stage }),
    }
}

// No `?`: a refusal goes back with the state of the stage that gave it.
#[tactic(auto, unfolding(crate::specs::Cycle::cycle_of, crate::specs::Cycle::cycle_store))]
pub fn cycle(state: State, input: Input, store: &mut [u32]) -> Cycled
    ensures { (result ≡ cycle_of input state store.old) × (store.new ≡ cycle_store input state store.old) }
{
    let settings = input.settings;
    let read = state.code_query();
    let fetched = state.fetch(settings, store, input.code);
    let fetch = match fetched.answer {
        Ok(answer) => answer,
        Err(refusal) => return refused_at(fetched.state, refusal, Stage::Fetch),
    };
    let decoded = fetched.state.decode(settings, store, input.records);
    let decode = match decoded.answer {
        Ok(answer) => answer,
        Err(refusal) => return refused_at(decoded.state, refusal, Stage::Decode),
    };
    let addressed = decoded.state.operands(settings, store);
    let operands = match addressed.answer {
        Ok(answer) => answer,
        Err(refusal) => return refused_at(addressed.state, refusal, Stage::Operands),
    };
    let executed = addressed.state.execute(settings, store, input.execute);
    let execute = match executed.answer {
        Ok(answer) => answer,
        Err(refusal) => return refused_at(executed.state, refusal, Stage::Execute),
    };
    Cycled {
        state: executed.state.apart(),
        answer: Ok(CycleAnswer {
            read,
            fetch,
            decode,
            operands,
            execute,
        }),
    }
}

// What has the number of a refusal: a cycle's own, and any `u32`, by which an answer that `cycle` did not give may tell its own.
pub trait Numbered: Copy {
    ghost number_of: { Self → ℕ };

    fn number(self) -> u32
        ensures { result ≡ number_of self };
}

impl Numbered for CycleRefusal {
    ghost number_of = { cycle_refusal_number };

    fn number(self) -> u32 {
        self.refusal.number()
    }
}

impl Numbered for u32 {
    ghost number_of = { λ number. number };

    fn number(self) -> u32 {
        self
    }
}

// The refusal's number, 0 where there is none. No crate here calls it: it stays since it was promised, and refusals are told by number outside.
pub fn cycle_number<E: Numbered>(answer: Result<CycleAnswer, E>) -> u32
    ensures { result ≡ cycle_number E.number_of answer }
{
    match answer {
        Ok(_) => 0,
        Err(refused) => refused.number(),
    }
}

// What a cycle charged: 0 for a refused one, also where decode had charged, and however the refusal is told.
pub fn cycle_charge<E: Copy>(answer: Result<CycleAnswer, E>) -> u32
    ensures { result ≡ cycle_charge answer }
{
    match answer {
        Ok(done) => done.decode.charge,
        Err(_) => 0,
    }
}
