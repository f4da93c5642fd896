// Cycles of any records in memory, for a benchmark: each line is three records and a want. The code word and the source word are the same in every cycle.
#![tactic(auto)]

ghost use Rattle.std.specs.Prelude.{◌≡◌};
ghost use Rattle.bench_lines.specs.Bench.{end_of};
ghost use Rattle.bench_opaque.specs.Opaque.{opaque_step, opaque_run};

use bench_lines::{Benchmark, CycleOutcome, LINE};
use cycle::Input;
use stages::{ExecuteInput, State};
use u256::U256;

#[derive(Clone, Copy)]
struct Opaque {
    code: U256,
    source: U256,
    limit: u32,
}

impl Benchmark<u64, LINE> for Opaque {
    ghost given = { λ opaque line state store. opaque_step opaque.code opaque.source opaque.limit line state store };

    // A line's cycle, with its want in register 1.
    #[tactic(auto, unfolding(crate::specs::Opaque::opaque_input, crate::specs::Opaque::opaque_step))]
    fn step(&self, state: State, line: &[u64; LINE], store: &mut [u32]) -> CycleOutcome {
        let input = Input {
            code: self.code,
            execute: ExecuteInput {
                word: self.source,
                pointer: false,
            },
            settings: start::settings_of(self.limit, 1),
            records: bench_lines::line_records(line),
        };
        let given = line_cycle::requested(state, bench_lines::want_of(line));
        CycleOutcome::from(cycle::cycle(given, input, store))
    }
}

// The caller is C, which gives each parameter by itself.
#[unsafe(no_mangle)]
pub extern "C" fn bench_opaque(
    lines: &[u64],
    code: &[u64; 4],
    source: &[u64; 4],
    limit: u32,
    ergs: u32,
    cycles: u64,
    store: &mut [u32],
    end: &mut [u64; 8],
)
    ensures { (store.new ≡ (opaque_run lines.now code.now source.now limit ergs cycles store.old).store)
        × (end.new ≡ end_of (opaque_run lines.now code.now source.now limit ergs cycles store.old).progress) }
{
    let opaque = Opaque {
        code: bench_lines::word_of(code),
        source: bench_lines::word_of(source),
        limit,
    };
    bench_lines::run(&opaque, lines, ergs, cycles, store, end);
}
