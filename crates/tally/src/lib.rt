// The spend tally: by depth, what each frame was charged while it was the current one, with what the frames that closed into it spent. A depth or limit is cast where it is an index or held against a length: `From` makes no usize of a u32.
#![tactic(auto)]

ghost use Rattle.std.specs.Prelude.{◌≡◌};
ghost use Rattle.refusal.specs.Refusal.{refusal_number};
ghost use Rattle.tally.specs.Tally.{bad_entry, enter_refusal, enter_of, tally_after};
ghost use Rattle.tally.specs.Entries.{PlaceHoldsSpend, PlaceHoldsCharges};

use refusal::Refusal;

// Whether the tally is shorter than limit plus 1, or the depths are above the limit or more than 1 apart.
fn bad_entry(size: usize, limit: u32, before: u32, after: u32) -> bool
    ensures { result ≡ bad_entry size limit before after }
{
    (size < limit as usize + 1) | (limit < before) | (limit < after) | (1 < before.abs_diff(after))
}

// Enters the charge of a cycle that led from one depth to another; the tally of a frame that it closed is added to the caller's. The limit and the depths are parameters and no struct: document 01 names an entry so.
#[tactic(auto, unfolding(crate::specs::Tally::enter_of, crate::specs::Tally::tally_after))]
pub fn enter(
    tally: &mut [u64],
    limit: u32,
    before: u32,
    after: u32,
    charge: u32,
) -> Result<(), Refusal>
    ensures { (result ≡ enter_of tally.old limit before after charge)
        × (tally.new ≡ tally_after tally.old limit before after charge)
        × (refusal_number result ≡ enter_refusal tally.old limit before after charge) }
{
    if bad_entry(tally.len(), limit, before, after) {
        return Err(Refusal::TallyEntry);
    }
    let place = before as usize;
    let spent = tally[place]
        .checked_add(u64::from(charge))
        .ok_or(Refusal::TallyEntry)?;
    // What the place at another depth will hold; an opened frame starts at 0. Both sums are made before the first write: a refusal changes nothing.
    let next = if after < before {
        tally[after as usize]
            .checked_add(spent)
            .ok_or(Refusal::TallyEntry)?
    } else {
        0
    };
    tally[place] = spent;
    if after != before {
        tally[after as usize] = next;
    }
    Ok(())
}

// What the tally is for, in contracts, so that it is proved with every check. After any list of entries the place at a depth holds what its frame was charged since it
// was opened, with what the frames that closed into it had spent; of a frame that was there before, what the place held then is counted, too.
pub fn place_holds_spend()
    ensures { PlaceHoldsSpend }
{}

// Where the entries are those of one cycle after the other, from zeros, that is the sum of all charges after the cycle that opened the frame up to the last one that
// begins or ends in it.
pub fn place_holds_charges()
    ensures { PlaceHoldsCharges }
{}
