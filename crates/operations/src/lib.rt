// What the operations of execute do, without the machine state: near call, return, add, sub, next pc and time.
#![tactic(auto)]

pub mod arithmetic;
pub mod near_call;
pub mod ret;
pub mod time;
