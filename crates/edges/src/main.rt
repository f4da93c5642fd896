// Runs the edges of document 01 that are not marked P, the listing's variants and those of a bill, and prints a line for each: its name, and what came. Nothing is said where it
// cannot be written.
#![tactic(auto)]

mod bills;
mod returns;
mod show;
mod variants;

fn main(rt: HostRuntime) {
    returns::table(&rt);
    variants::table(&rt);
    variants::longest(&rt);
    bills::table(&rt);
    bills::longest(&rt);
}
