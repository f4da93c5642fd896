// The sums of a local return.
ghost use Rattle.std.specs.Prelude.{◌≡◌, true, cond, ◌||◌, pos, if◌then◌else◌, nat_eq};
ghost use Rattle.refusal.specs.declared.Refusal.{Refusal};
ghost use Rattle.operations.specs.Ret.{pubdata_after, counter_after, is_outside, is_bad_counter, cost_of, return_pc, ergs_past, is_shrunk, resumed_with};

use frame::{Frame, PubdataCost};
use records::Record;
use records::kinds::ReturnKind;
use refusal::Refusal;

// Most frames spend no pubdata: then neither sum has to be made.
fn is_none(cost: PubdataCost) -> bool
    ensures { result ≡ true → cost.0 ≡ pos 0 }
{
    cost.0 == 0
}

// The caller's pubdata: on ok the closed frame's is added.
#[tactic(auto, unfolding(signed::specs::Signed::checked_of))]
pub fn pubdata_after(ok: bool, caller: PubdataCost, closed: PubdataCost) -> Option<i32>
    ensures { result ≡ pubdata_after ok caller.0 closed.0 }
{
    if ok & !is_none(closed) {
        signed::checked_add(caller.0, closed.0)
    } else {
        Some(caller.0)
    }
}

// The revert counter: on revert and panic the closed frame's pubdata is taken off.
#[tactic(auto, unfolding(signed::specs::Signed::checked_of))]
pub fn counter_after(ok: bool, counter: PubdataCost, closed: PubdataCost) -> Option<i32>
    ensures { result ≡ counter_after ok counter.0 closed.0 }
{
    if ok | is_none(closed) {
        Some(counter.0)
    } else {
        signed::checked_sub(counter.0, closed.0)
    }
}

pub fn is_outside(c: Option<i32>) -> bool
    ensures { result ≡ is_outside c }
{
    c.is_none()
}

// Outside, or below 0.
pub fn is_bad_counter(c: Option<i32>) -> bool
    ensures { result ≡ is_bad_counter c }
{
    c.is_none_or(|n| n < 0)
}

// The number, or 0 where it is outside.
pub fn cost_of(c: Option<i32>) -> PubdataCost
    ensures { result ≡ cost_of c }
{
    PubdataCost(c.unwrap_or(0))
}

// A label wins over the handler.
pub fn return_pc(ok: bool, label: bool, target: u16, handler: u16, saved: u16) -> u16
    ensures { result ≡ return_pc ok label target handler saved }
{
    if label {
        target
    } else if ok {
        saved
    } else {
        handler
    }
}

pub fn ergs_past(caller: u32, closed: u32) -> bool
    ensures { result ≡ ergs_past caller closed }
{
    caller.checked_add(closed).is_none()
}

pub fn is_shrunk(caller: Frame, closed: Frame) -> bool
    ensures { result ≡ is_shrunk caller closed }
{
    (closed.heap_bound < caller.heap_bound) | (closed.aux_heap_bound < caller.aux_heap_bound)
}

// A frame that closes, with its caller, and what the caller's pubdata and the revert counter are after it.
#[derive(Clone, Copy)]
pub struct Closing {
    pub caller: Frame,
    pub closed: Frame,
    pub spent: Option<i32>,
    pub reverted: Option<i32>,
}

impl Closing {
    fn is_past(self) -> bool
        ensures { result ≡ ergs_past self.caller.ergs_remaining self.closed.ergs_remaining }
    {
        ergs_past(self.caller.ergs_remaining, self.closed.ergs_remaining)
    }

    // Whether one of refusals 10 to 14 holds.
    pub fn is_refused(self, late: bool) -> bool
        ensures { result ≡ (is_outside self.spent || is_bad_counter self.reverted || ergs_past self.caller.ergs_remaining self.closed.ergs_remaining
            || is_shrunk self.caller self.closed || late) }
    {
        // The sums by themselves: of a frame that spent nothing the compiler knows them before.
        if is_outside(self.spent) | is_bad_counter(self.reverted) {
            return true;
        }
        self.is_past() | is_shrunk(self.caller, self.closed) | late
    }

    // The first of them, one of which holds.
    pub fn refusal(self) -> Refusal
        ensures { result ≡ (if is_outside self.spent then Refusal.PubdataSum else (if is_bad_counter self.reverted then Refusal.RevertCounter
            else (if ergs_past self.caller.ergs_remaining self.closed.ergs_remaining then Refusal.ErgsSum
            else (if is_shrunk self.caller self.closed then Refusal.HeapBound else Refusal.Above32Bits)))) }
    {
        refusal::first_after(
            &[
                (is_outside(self.spent), Refusal::PubdataSum),
                (is_bad_counter(self.reverted), Refusal::RevertCounter),
                (self.is_past(), Refusal::ErgsSum),
                (is_shrunk(self.caller, self.closed), Refusal::HeapBound),
            ],
            Refusal::Above32Bits,
        )
    }

    // The caller as it goes on after the return r with so many ergs.
    #[tactic(auto, unfolding(crate::specs::Ret::resumed_with))]
    pub fn resumed(self, r: Record, ergs: u32) -> Frame
        ensures { result ≡ resumed_with self.caller self.closed (cost_of self.spent) ergs
            (return_pc (nat_eq r.return_kind 0) r.to_label r.imm_0 self.closed.exception_handler_location self.caller.pc) }
    {
        let cost = cost_of(self.spent);
        let pc = return_pc(
            r.return_kind == ReturnKind::Ok as u8,
            r.to_label,
            r.imm_0,
            self.closed.exception_handler_location,
            self.caller.pc,
        );
        let heap = self.closed.heap_bound;
        let aux = self.closed.aux_heap_bound;
        let mut f = self.caller.apart();
        f.heap_bound = heap;
        f.aux_heap_bound = aux;
        f.total_pubdata_spent = cost;
        f.ergs_remaining = ergs;
        f.pc = pc;
        f
    }
}
