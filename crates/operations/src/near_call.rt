// How a near call divides the ergs.
ghost use Rattle.std.specs.Prelude.{◌≡◌};
ghost use Rattle.operations.specs.NearCall.{wanted_ergs, passed_ergs, caller_of, opened_of};

use frame::{Frame, PubdataCost};

// What the call requests, or the most that 32 bits hold.
pub fn wanted_ergs(want: u32, multiplier: u32) -> u32
    ensures { result ≡ wanted_ergs want multiplier }
{
    want.saturating_mul(multiplier)
}

pub fn passed_ergs(wanted: u32, held: u32) -> u32
    ensures { result ≡ passed_ergs wanted held }
{
    let all = (wanted == 0) | (held < wanted);
    if all { held } else { wanted }
}

#[tactic(auto, unfolding(crate::specs::NearCall::caller_of))]
pub fn caller_frame(f: Frame, ergs: u32, pc: u16) -> Frame
    ensures { result ≡ caller_of f ergs pc }
{
    let mut caller = f.apart();
    caller.ergs_remaining = ergs;
    caller.pc = pc;
    caller
}

#[tactic(auto, unfolding(crate::specs::NearCall::opened_of))]
pub fn opened_frame(f: Frame, ergs: u32, pc: u16, handler: u16, cycle: u32) -> Frame
    ensures { result ≡ opened_of f ergs pc handler cycle }
{
    let none = PubdataCost(0);
    let mut opened = f.apart();
    opened.ergs_remaining = ergs;
    opened.pc = pc;
    opened.exception_handler_location = handler;
    opened.is_local_frame = true;
    opened.total_pubdata_spent = none;
    opened.opening_cycle = cycle;
    opened
}
