// Runs cases: each line of standard input is one whole cycle from a ready state, or execute alone from a state in mid-cycle, and a line of standard output says what came of it.
#![tactic(auto)]

mod case;
mod numbers;
mod result;
mod serve;

fn main(rt: HostRuntime) {
    serve::serve(&rt, &mut rt.stdin());
}
