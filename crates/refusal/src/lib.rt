// The fifteen refusals: what a stage or the tally answers in place of a result. docs/REFUSALS.md says when each comes.
#![tactic(auto)]

ghost use Rattle.std.specs.Prelude.{◌≡◌};
ghost use Rattle.refusal.specs.Refusal.{paper_number, first_after};

// Checks run by number, so the order is that of the numbers, from 1.
#[derive(Clone, Copy, Debug, PartialEq, Eq)]
pub enum Refusal {
    // limit 0 or above the store's whole rows, or depth above limit
    Sizes = 1,
    // a stage that is not the next one
    Turn,
    // a record that is not good, or not one that may come now
    Record,
    // an exception is pending where execution has ended
    EndedPending,
    // an operation that is not carried over
    Operation,
    // a pointer in a place that may not hold one
    Pointer,
    // a return from a frame that is not local
    FarReturn,
    // no good row to return to
    NoCaller,
    // a near call at the limit
    DepthLimit,
    // the caller's pubdata outside 32 signed bits
    PubdataSum,
    // the revert counter outside 32 signed bits, or below 0
    RevertCounter,
    // the caller's ergs above 32 bits
    ErgsSum,
    // a heap bound below the caller's
    HeapBound,
    // a stack page, a time or the cycle counter above 32 bits
    Above32Bits,
    // an entry that the tally does not take
    TallyEntry,
}

impl Refusal {
    pub fn number(self) -> u32
        ensures { result ≡ paper_number self }
    {
        // a `From` would hold this cast and no more
        self as u32
    }
}

// The first whose check holds; the last one where none does.
pub fn first_after(checks: &[(bool, Refusal)], last: Refusal) -> Refusal
    ensures { result ≡ first_after checks.now last }
{
    for (holds, refusal) in checks {
        if *holds {
            return *refusal;
        }
    }
    last
}
