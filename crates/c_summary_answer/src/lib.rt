// Inner: a summary as C lends it, and an answer that carries one as C is handed it: what the exports
// about summaries share.
#![tactic(auto)]

ghost use Rattle.std.specs.Prelude.{Ok, ◌≡◌, true, false, ◌||◌};
ghost use Rattle.refusals.specs.Given.{outside, or_else};
ghost use Rattle.summary_form.specs.Summary.{empty_summary};
ghost use Rattle.c_summary_lists.specs.Columns.{columns_of, fits};
ghost use Rattle.c_summary_lists.specs.Lists.{columns_in};
ghost use Rattle.c_summary_answer.specs.Summaries.{handed_summary, HandedSummary, list_fault, lent_summary};

use c_answer::{ANSWERED, REFUSED};
use c_summary_lists::Lists;
use refusals::Refusal;
use summary_form::Summary;

// What a summary's answer says; the slots stand in the three lists.
#[repr(C)]
#[derive(Clone, Copy)]
pub struct SummaryAnswer {
    pub kind: u8,
    pub number: u8,
    pub position: usize,
    pub places: usize,
    pub letters: u32,
}

// What is handed over of a summary's answer beside its lists; a refusal comes with no places and no
// letters.
pub fn of_summed(made: Result<Summary, Refusal>) -> SummaryAnswer
    ensures { result ≡ handed_summary made }
{
    match made {
        Ok(summary) => SummaryAnswer {
            kind: ANSWERED,
            number: 0,
            position: 0,
            places: summary.places,
            letters: summary.letters,
        },
        Err(why) => SummaryAnswer {
            kind: REFUSED,
            number: why.number,
            position: why.at,
            places: 0,
            letters: 0,
        },
    }
}

// A summary's answer, its slots into the lists where it was made.
pub fn hand_summed(
    made: Result<Summary, Refusal>,
    need: &mut [u32],
    climb: &mut [u32],
    change: &mut [i32],
) -> SummaryAnswer
    requires { fits (columns_of need.old climb.old change.old) ≡ true }
    ensures { HandedSummary made (columns_of need.old climb.old change.old) result (columns_of need.new climb.new change.new) }
{
    if let Ok(summary) = made {
        c_summary_lists::write_slots(summary.slots, need, climb, change);
    }
    of_summed(made)
}

// Whether one of two place counts is out of range.
fn are_outside(first: usize, second: usize) -> bool
    ensures { result ≡ (outside first || outside second) }
{
    refusals::is_outside(first) || refusals::is_outside(second)
}

// Refusals 1 and 2 where a list has another length than 64.
pub fn refuse_lists(first: usize, second: usize) -> SummaryAnswer
    ensures { result ≡ handed_summary (or_else (list_fault (outside first || outside second) false (Ok tt)) (Ok (empty_summary 0))) }
{
    let number = if are_outside(first, second) { 1 } else { 2 };
    of_summed(Err(Refusal { number, at: 0 }))
}

// A summary from what C lends.
pub fn lent_summary(places: usize, letters: u32, lists: &Lists) -> Summary
    requires { fits (columns_in lists.now) ≡ true }
    ensures { result ≡ lent_summary places letters (columns_in lists.now) }
{
    Summary {
        places,
        letters,
        slots: lists.read_slots(),
    }
}
