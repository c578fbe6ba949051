// Summaries made, for C, as include/kaunorpi.h declares them: a list passes as its pointer and its
// number of entries. Each export asks the entry of its name, and c_summary_answer hands over what it
// answers.
#![tactic(auto)]

ghost use Rattle.std.specs.Prelude.{◌&&◌};
ghost use Rattle.net.specs.Net.{net_of};
ghost use Rattle.refusals.specs.Given.{stretch, inside};
ghost use Rattle.summary.specs.Entry.{word_answer};
ghost use Rattle.c_summary_lists.specs.Columns.{columns_of, fits};
ghost use Rattle.c_summary_answer.specs.Summaries.{HandedSummary};
ghost use Rattle.c_summary.specs.Summaries.{empty_for};

use c_summary_answer::SummaryAnswer;
use c_summary_lists::Lists;
use ground::Weight;
use net::Lent;

// The summary of no letters.
#[unsafe(no_mangle)]
pub extern "C" fn kaunorpi_empty_summary(
    places: usize,
    need: &mut [u32],
    climb: &mut [u32],
    change: &mut [i32],
) -> SummaryAnswer
    ensures { HandedSummary (empty_for places (fits (columns_of need.old climb.old change.old))) (columns_of need.old climb.old change.old) result (columns_of need.new climb.new change.new) }
{
    let lists = Lists {
        need: &*need,
        climb: &*climb,
        change: &*change,
    };
    if lists.is_fitting() {
        let made = summary::empty_summary(places);
        return c_summary_answer::hand_summed(made, need, climb, change);
    }
    c_summary_answer::refuse_lists(places, places)
}

// The summary of a word. Where a list has another length than 64, a stretch that ends before its
// start stands for it: that is refusal 1 or 2, as it should be.
#[unsafe(no_mangle)]
pub extern "C" fn kaunorpi_summary_word(
    places: usize,
    transitions: usize,
    pre: &[Weight],
    post: &[Weight],
    caps: &[u16],
    marks: &[u8],
    word: &[u8],
    need: &mut [u32],
    climb: &mut [u32],
    change: &mut [i32],
) -> SummaryAnswer
    ensures { HandedSummary (word_answer (net_of places transitions pre.now post.now caps.now marks.now) word.now (fits (columns_of need.old climb.old change.old))) (columns_of need.old climb.old change.old) result (columns_of need.new climb.new change.new) }
{
    let net = Lent {
        places,
        transitions,
        pre,
        post,
        caps,
        marks,
    };
    let lists = Lists {
        need: &*need,
        climb: &*climb,
        change: &*change,
    };
    if lists.is_fitting() {
        let made = summary::summary_word(&net, word);
        return c_summary_answer::hand_summed(made, need, climb, change);
    }
    let none = summary::summary_stretch(&net, word, 1, 0);
    c_summary_answer::of_summed(none)
}

// The same for the letters from number start up to number end.
#[unsafe(no_mangle)]
pub extern "C" fn kaunorpi_summary_stretch(
    places: usize,
    transitions: usize,
    pre: &[Weight],
    post: &[Weight],
    caps: &[u16],
    marks: &[u8],
    word: &[u8],
    start: usize,
    end: usize,
    need: &mut [u32],
    climb: &mut [u32],
    change: &mut [i32],
) -> SummaryAnswer
    ensures { HandedSummary (word_answer (net_of places transitions pre.now post.now caps.now marks.now) (stretch word.now start end) (inside word.now start end && fits (columns_of need.old climb.old change.old))) (columns_of need.old climb.old change.old) result (columns_of need.new climb.new change.new) }
{
    let net = Lent {
        places,
        transitions,
        pre,
        post,
        caps,
        marks,
    };
    let lists = Lists {
        need: &*need,
        climb: &*climb,
        change: &*change,
    };
    if lists.is_fitting() {
        let made = summary::summary_stretch(&net, word, start, end);
        return c_summary_answer::hand_summed(made, need, climb, change);
    }
    let none = summary::summary_stretch(&net, word, 1, 0);
    c_summary_answer::of_summed(none)
}
