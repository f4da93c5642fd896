// Cycles of a listing's lines in memory, for a benchmark: each line is an op, a price and a want.
#![tactic(auto)]

ghost use Rattle.std.specs.Prelude.{◌≡◌};
ghost use Rattle.bench_lines.specs.Bench.{end_of};
ghost use Rattle.bench_listing.specs.Listing.{op_numbered, listing_step, listing_run};

use bench_lines::{Benchmark, CycleOutcome};
use stages::State;
use table::Op;

const WIDTH: usize = 3;

// Numbers, since the lines come from C.
fn op_of(n: u32) -> Op
    ensures { result ≡ op_numbered n }
{
    match n {
        0 => Op::Add,
        1 => Op::Call,
        2 => Op::Ok,
        3 => Op::Revert,
        _ => Op::Panic,
    }
}

#[derive(Clone, Copy)]
struct Listing {
    limit: u32,
}

impl Benchmark<u32, WIDTH> for Listing {
    ghost given = { λ listing line state store. listing_step listing.limit line state store };

    // A line's cycle, as nearbook's: the want in register 1.
    #[tactic(auto, unfolding(crate::specs::Listing::listing_step))]
    fn step(&self, state: State, line: &[u32; WIDTH], store: &mut [u32]) -> CycleOutcome {
        let [op, price, want] = *line;
        let input = line_cycle::input_of(self.limit, op_of(op), price);
        let given = line_cycle::requested(state, want);
        CycleOutcome::from(cycle::cycle(given, input, store))
    }
}

// The caller is C, which gives each parameter by itself.
#[unsafe(no_mangle)]
pub extern "C" fn bench_listing(
    lines: &[u32],
    limit: u32,
    ergs: u32,
    cycles: u64,
    store: &mut [u32],
    end: &mut [u64; 8],
)
    ensures { (store.new ≡ (listing_run lines.now limit ergs cycles store.old).store)
        × (end.new ≡ end_of (listing_run lines.now limit ergs cycles store.old).progress) }
{
    bench_lines::run(&Listing { limit }, lines, ergs, cycles, store, end);
}
