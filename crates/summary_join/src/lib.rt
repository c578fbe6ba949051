// Two summaries joined without their words.
#![tactic(auto)]

ghost use Rattle.std.specs.Prelude.{◌≡◌, ◌||◌, ◌≤◌};
ghost use Rattle.ground.specs.Limits.{word_limit};
ghost use Rattle.refusals.specs.Given.{outside};
ghost use Rattle.summary_join.specs.Join.{later_fault, join_fault, join_answer};

use ground::WORD_LIMIT;
use refusals::Refusal;
use summary_form::Summary;

// Refusal 6 for the second summary, then 7.
fn later_fault(letters: u32, b: Summary) -> Result<(), Refusal>
    requires { letters ≤ word_limit }
    ensures { result ≡ later_fault letters b }
{
    summary_form::shape_fault(b)?;
    refusals::refuse(WORD_LIMIT < (letters + b.letters) as usize, 7, 0)
}

// Refusal 1 for the two place counts.
fn are_outside(first: usize, second: usize) -> bool
    ensures { result ≡ (outside first || outside second) }
{
    refusals::is_outside(first) || refusals::is_outside(second)
}

// Refusals 1, 2, 6 and 7 for two summaries.
fn join_fault(a: Summary, b: Summary) -> Result<(), Refusal>
    ensures { result ≡ join_fault a b }
{
    refusals::refuse(are_outside(a.places, b.places), 1, 0)?;
    refusals::refuse(a.places != b.places, 2, 0)?;
    summary_form::shape_fault(a)?;
    later_fault(a.letters, b)
}

// The summary of a's word followed by b's, from the two summaries alone.
pub fn join_summaries(a: Summary, b: Summary) -> Result<Summary, Refusal>
    ensures { result ≡ join_answer a b }
{
    join_fault(a, b)?;
    Ok(Summary {
        places: a.places,
        letters: a.letters + b.letters,
        slots: summary_slots::join_slots(a.slots, b.slots),
    })
}
