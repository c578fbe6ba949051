// Inner: what a summary is, and whether one is well formed: what all questions about summaries share.
#![tactic(auto)]

ghost use Rattle.std.specs.Prelude.{◌≡◌};
ghost use Rattle.summary_form.specs.Summary.{empty_summary, or_empty, shape_fault};

use ground::{COUNT_LIMIT, WEIGHT_LIMIT, WORD_LIMIT};
use refusals::Refusal;
use summary_place::Slot;

// The place count, the number of letters, and a slot for each place; slots past the places are zero.
#[derive(Clone, Copy)]
pub struct Summary {
    pub places: usize,
    pub letters: u32,
    pub slots: [Slot; COUNT_LIMIT],
}

// The summary of no letters.
pub fn no_letters(places: usize) -> Summary
    ensures { result ≡ empty_summary places }
{
    Summary {
        places,
        letters: 0,
        slots: summary_place::no_slots(),
    }
}

// The summary of an answer. A refusal comes with the empty summary of no places.
pub fn or_empty(made: Result<Summary, Refusal>) -> Summary
    ensures { result ≡ or_empty made }
{
    match made {
        Ok(summary) => summary,
        Err(_) => no_letters(0),
    }
}

// Refusal 6: where a summary is not well formed.
pub fn shape_fault(s: Summary) -> Result<(), Refusal>
    ensures { result ≡ shape_fault s }
{
    refusals::refuse(WORD_LIMIT < s.letters as usize, 6, 0)?;
    refusals::refuse_found(
        summary_slots::bad_slot(s.places, WEIGHT_LIMIT * s.letters, s.slots),
        6,
    )
}
