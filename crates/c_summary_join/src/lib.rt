// Summaries joined, for C, as include/kaunorpi.h declares it: a list passes as its pointer and its
// number of entries. The export asks the entry of its name, and c_summary_answer hands over what it
// answers.
#![tactic(auto)]

ghost use Rattle.std.specs.Prelude.{◌≡◌, ◌&&◌};
ghost use Rattle.c_summary_lists.specs.Columns.{columns_of, fits};
ghost use Rattle.c_summary_lists.specs.Lists.{columns_in};
ghost use Rattle.c_summary_answer.specs.Summaries.{HandedSummary};
ghost use Rattle.c_summary_join.specs.Join.{join_for};

use c_summary_answer::SummaryAnswer;
use c_summary_lists::Lists;

// Whether all lists of a join have an entry for each slot.
fn join_fits(first: &Lists, second: &Lists, third: &Lists) -> bool
    ensures { result ≡ (fits (columns_in first.now) && (fits (columns_in second.now) && fits (columns_in third.now))) }
{
    first.is_fitting() && second.is_fitting() && third.is_fitting()
}

// The summary of the first word followed by the second, from their summaries.
#[unsafe(no_mangle)]
pub extern "C" fn kaunorpi_join_summaries(
    places1: usize,
    letters1: u32,
    need1: &[u32],
    climb1: &[u32],
    change1: &[i32],
    places2: usize,
    letters2: u32,
    need2: &[u32],
    climb2: &[u32],
    change2: &[i32],
    need: &mut [u32],
    climb: &mut [u32],
    change: &mut [i32],
) -> SummaryAnswer
    ensures { HandedSummary (join_for places1 letters1 (columns_of need1.now climb1.now change1.now) places2 letters2 (columns_of need2.now climb2.now change2.now) (columns_of need.old climb.old change.old)) (columns_of need.old climb.old change.old) result (columns_of need.new climb.new change.new) }
{
    let first = Lists {
        need: need1,
        climb: climb1,
        change: change1,
    };
    let second = Lists {
        need: need2,
        climb: climb2,
        change: change2,
    };
    let third = Lists {
        need: &*need,
        climb: &*climb,
        change: &*change,
    };
    if join_fits(&first, &second, &third) {
        let a = c_summary_answer::lent_summary(places1, letters1, &first);
        let b = c_summary_answer::lent_summary(places2, letters2, &second);
        let made = summary_join::join_summaries(a, b);
        return c_summary_answer::hand_summed(made, need, climb, change);
    }
    c_summary_answer::refuse_lists(places1, places2)
}
