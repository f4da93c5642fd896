// Cycles whose stages are called one by one, for a benchmark, as one who serves a contract calls them: the code query and the source location are answered from a memory.
#![tactic(auto)]

ghost use Rattle.std.specs.Prelude.{◌≡◌};
ghost use Rattle.cycle.specs.Cycle.{cycle_of, cycle_store};
ghost use Rattle.bench_lines.specs.Bench.{cycle_outcome, end_of};
ghost use Rattle.bench_staged.specs.Staged.{staged_input, staged_step, staged_run};

mod memory;

use bench_lines::{Benchmark, CycleOutcome, LINE};
use records::{Records, Settings};
use refusal::Refusal;
use stages::{ExecuteInput, State};

// Not by cycle's `refused_at`: each call would name a stage, which the outcome leaves out.
fn refused(state: State, refusal: Refusal) -> CycleOutcome
    ensures { result ≡ record { state = state; charge = Err refusal } }
{
    CycleOutcome {
        state: state.apart(),
        charge: Err(refusal),
    }
}

// The four stages, as in `cycle::cycle`: called here, each is inlined, and the source is answered between two of them.
// A refusal answers the state with it, so there is no `?`.
#[tactic(auto, unfolding(crate::specs::Staged::staged_input, cycle::specs::Cycle::cycle_of, cycle::specs::Cycle::cycle_store))]
fn cycle_by_stages(
    state: State,
    settings: Settings,
    records: Records,
    words: &[u64],
    store: &mut [u32],
) -> CycleOutcome
    ensures { (result ≡ cycle_outcome (cycle_of (staged_input settings records words.now state store.old) state store.old))
        × (store.new ≡ cycle_store (staged_input settings records words.now state store.old) state store.old) }
{
    let code = memory::read(words, state.code_query());
    let fetched = state.fetch(settings, store, code);
    if let Err(refusal) = fetched.answer {
        return refused(fetched.state, refusal);
    }
    let decoded = fetched.state.decode(settings, store, records);
    let charge = match decoded.answer {
        Ok(answer) => answer.charge,
        Err(refusal) => return refused(decoded.state, refusal),
    };
    let addressed = decoded.state.operands(settings, store);
    let location = match addressed.answer {
        Ok(answer) => answer.source,
        Err(refusal) => return refused(addressed.state, refusal),
    };
    let input = ExecuteInput {
        word: memory::read(words, location),
        pointer: false,
    };
    let executed = addressed.state.execute(settings, store, input);
    if let Err(refusal) = executed.answer {
        return refused(executed.state, refusal);
    }
    CycleOutcome {
        state: executed.state.apart(),
        charge: Ok(charge),
    }
}

#[derive(Clone, Copy)]
struct Served<'a> {
    words: &'a [u64],
    limit: u32,
}

impl Benchmark<u64, LINE> for Served<'_> {
    ghost given = { λ served line state store. staged_step served.words.now served.limit line state store };

    // A line's cycle, with its want in register 1.
    #[tactic(auto, unfolding(crate::specs::Staged::staged_step))]
    fn step(&self, state: State, line: &[u64; LINE], store: &mut [u32]) -> CycleOutcome {
        let settings = start::settings_of(self.limit, 1);
        let records = bench_lines::line_records(line);
        let given = line_cycle::requested(state, bench_lines::want_of(line));
        cycle_by_stages(given, settings, records, self.words, store)
    }
}

// The caller is C, which gives each parameter by itself.
#[unsafe(no_mangle)]
pub extern "C" fn bench_staged(
    lines: &[u64],
    words: &[u64],
    limit: u32,
    ergs: u32,
    cycles: u64,
    store: &mut [u32],
    end: &mut [u64; 8],
)
    ensures { (store.new ≡ (staged_run lines.now words.now limit ergs cycles store.old).store)
        × (end.new ≡ end_of (staged_run lines.now words.now limit ergs cycles store.old).progress) }
{
    bench_lines::run(&Served { words, limit }, lines, ergs, cycles, store, end);
}
