// What fetch and decode do, without the machine state: parts of a pc, code words, price, error flags, conditions, masks.
#![tactic(auto)]

pub mod decode;
pub mod fetch;

// The Rust's five, each under its name there.
#[derive(Clone, Copy)]
pub struct ErrorFlags {
    pub invalid_opcode: bool,
    pub not_enough_ergs: bool,
    pub privilaged_access_not_from_kernel: bool,
    pub write_in_static_context: bool,
    pub callstack_is_full: bool,
}
