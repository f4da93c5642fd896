// What the benchmarks share: the run over lines of words, of which each says the step, what is told at its end, and the reading of a record.
#![tactic(auto)]

ghost use Rattle.std.specs.Prelude.{◌≡◌, ℕ, ◌+◌, ◌≤◌, List, length};
ghost use Rattle.stages.specs.declared.State.{State};
ghost use Rattle.cycle.specs.Cycle.{cycle_of, cycle_store};
ghost use Rattle.bench_lines.specs.Bench.{CycleGiven, start_progress, cycles_of, next_line, line_at, cycle_outcome, refused_number, flags_number, end_of, run_of};

mod line;

use cycle::Cycled;
pub use line::{LINE, line_records, want_of, word_of};
use records::Flags;
use refusal::Refusal;
use stages::State;

// What a cycle gives.
#[derive(Clone, Copy)]
pub struct CycleOutcome {
    pub state: State,
    pub charge: Result<u32, Refusal>,
}

impl From<Cycled> for CycleOutcome {
    ghost from_gives = { λ cycled result. result ≡ cycle_outcome cycled };

    fn from(cycled: Cycled) -> CycleOutcome {
        let charge = match cycled.answer {
            Err(refused) => Err(refused.refusal),
            Ok(answer) => Ok(answer.decode.charge),
        };
        CycleOutcome {
            state: cycled.state,
            charge,
        }
    }
}

// How far a run has come: the sum of the charges, the cycles begun, where the next line begins, and the refusal that ended it.
#[derive(Clone, Copy)]
pub struct Progress {
    pub state: State,
    pub charged: u64,
    pub begun: u64,
    pub at: usize,
    pub refusal: Option<Refusal>,
}

// A benchmark's step: the one cycle of a line of so many words.
pub trait Benchmark<T, const WIDTH: usize> {
    ghost given: { Self → List T → State → List ℕ → CycleGiven };

    fn step(&self, state: State, line: &[T; WIDTH], store: &mut [u32]) -> CycleOutcome
        ensures outcome { let g = given self.now line.now state store.old in result ≡ cycle_outcome (cycle_of g.input g.state store.old) }
        ensures store { let g = given self.now line.now state store.old in store.new ≡ cycle_store g.input g.state store.old };
}

// The cycles to run: none where there is no whole line.
fn cycles_of(width: usize, words: usize, cycles: u64) -> u64
    ensures { result ≡ cycles_of width words cycles }
{
    if width <= words { cycles } else { 0 }
}

fn start_progress(ergs: u32) -> Progress
    ensures { result ≡ start_progress ergs }
{
    Progress {
        state: start::start_state(ergs, 0),
        charged: 0,
        begun: 0,
        at: 0,
        refusal: None,
    }
}

// By an index: std's chunks ask that the width is not 0, and `as_chunks` that a line's size in memory is below 2^63, which the proof does not have of any T and WIDTH, and `run` may not ask.
// By `cycle()` over lines an opaque cycle took 465.8 instructions, where it took 430 by an index (docs/SPEED.md).
fn next_line(at: usize, width: usize, words: usize) -> usize
    requires { at + width ≤ words }
    ensures { result ≡ next_line width words at }
{
    let after = at + width;
    if words - width < after { 0 } else { after }
}

fn line_at<T, const WIDTH: usize>(lines: &[T], at: usize) -> &[T; WIDTH]
    requires { at + WIDTH ≤ length lines.now }
    ensures { result.now ≡ line_at WIDTH lines.now at }
{
    <&[T; WIDTH]>::try_from(&lines[at..at + WIDTH]).unwrap()
}

// One number, since the caller is C.
fn flags_number(flags: Flags) -> u64
    ensures { result ≡ flags_number flags }
{
    u64::from(flags.overflow_or_less_than_flag)
        + 2 * u64::from(flags.equality_flag)
        + 4 * u64::from(flags.greater_than_flag)
}

// A number, 0 where there is no refusal, since the caller is C.
fn refused_number(refusal: Option<Refusal>) -> u32
    ensures { result ≡ refused_number refusal }
{
    refusal.map_or(0, Refusal::number)
}

// Writes what is told of a run at its end.
// The loop counts each cycle that it begins; the one that was refused comes off here.
#[tactic(auto, unfolding(crate::specs::Bench::end_of))]
fn tell(end: &mut [u64; 8], run: Progress)
    ensures { end.new ≡ end_of run }
{
    *end = [
        u64::from(refused_number(run.refusal)),
        run.begun.saturating_sub(u64::from(run.refusal.is_some())),
        u64::from(run.state.current.ergs_remaining),
        u64::from(run.state.depth),
        u64::from(run.state.current.pc),
        flags_number(run.state.flags),
        u64::from(run.state.timestamp),
        run.charged,
    ];
}

// Runs the lines in turn, one cycle each, and from the front again after the last whole one. A refusal ends the run.
// The parameters from `lines` on are those that C gives each benchmark.
pub fn run<T, B: Benchmark<T, WIDTH>, const WIDTH: usize>(
    bench: &B,
    lines: &[T],
    ergs: u32,
    cycles: u64,
    store: &mut [u32],
    end: &mut [u64; 8],
)
    ensures store { store.new ≡ (run_of (B.given bench.now) WIDTH lines.now cycles ergs store.old).store }
    ensures end { end.new ≡ end_of (run_of (B.given bench.now) WIDTH lines.now cycles ergs store.old).progress }
{
    let count = cycles_of(WIDTH, lines.len(), cycles);
    let mut run = start_progress(ergs);
    for _ in 0..count {
        let line = line_at(lines, run.at);
        run.at = next_line(run.at, WIDTH, lines.len());
        let ran = bench.step(run.state, line, store);
        run.state = ran.state;
        // not the range's own number: what is told is the run's, and the run alone lasts to its end
        run.begun += 1;
        match ran.charge {
            Ok(charge) => run.charged = run.charged.wrapping_add(u64::from(charge)),
            Err(refusal) => {
                run.refusal = Some(refusal);
                break;
            }
        }
    }
    tell(end, run);
}
