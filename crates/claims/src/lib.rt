// What is claimed of the cycle core as a whole, each claim in a contract, so that it is proved with every check.
#![tactic(auto)]

ghost use Rattle.lists.specs.Claims.{CallersResume, CyclesCover, FramesCounted};
ghost use Rattle.claims.specs.Core.{core};
ghost use Rattle.claims.specs.Answers.{EveryCallAnswers, EveryEntryAnswers, ChargeAnswered};
ghost use Rattle.claims.specs.Edges.{edges, AllHold};
ghost use Rattle.claims.specs.SourceWord.{WordUnread, CodeUnread};
ghost use Rattle.claims.specs.WritePlace.{WritesWhereAnswered};

// Demand 1: each call of a stage finishes, or refuses with one of its numbers and changes nothing.
pub fn every_call_answers()
    ensures { EveryCallAnswers }
{}

// Demand 1 for the tally: each entry is made, or refused with 15 and changes nothing.
#[tactic(auto, unfolding(tally::specs::Tally::enter_of, tally::specs::Tally::tally_after))]
pub fn every_entry_answers()
    ensures { EveryEntryAnswers }
{}

// What decode answers as its charge is what demand 3 counts.
#[tactic(auto, unfolding(stages::specs::Decode::decode_of, stages::specs::Decode::decode_done, lists::specs::Machine::charge_of))]
pub fn charge_answered()
    ensures { ChargeAnswered }
{}

// Demand 3: whenever the frame of a near call closes, its caller is current again and holds what it had less the charges, no less than its share, and the frames
// below are as they were. The share is what it had less the call's charge and what was passed, with nothing cut off.
pub fn callers_resume()
    ensures { CallersResume core }
{}

// Every finished call is of a cycle that demand 3 is about, but for part of a cycle at either end of the list.
pub fn cycles_cover()
    ensures { CyclesCover core }
{}

// What demand 3 counts as opened and closed is what the depth counts.
pub fn frames_counted()
    ensures { FramesCounted core }
{}

// Where operands gave no source location, what execute does is the same for every word and pointer bit.
pub fn word_unread()
    ensures { WordUnread }
{}

// Where the query wanted no code word, what fetch does is the same for every word.
#[tactic(auto, unfolding(stages::specs::Fetch::query_of, stages::specs::Fetch::fetch_of, stages::specs::Fetch::fetch_done))]
pub fn code_unread()
    ensures { CodeUnread }
{}

// What execute writes is at the place and time that operands answered; operations other than add and sub write nothing.
pub fn writes_where_answered()
    ensures { WritesWhereAnswered }
{}

// The edges that document 01 marks P, and the times of two cycles.
pub fn edges_hold()
    ensures { AllHold edges }
{}
