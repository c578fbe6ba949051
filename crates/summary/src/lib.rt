// Summaries of words: what a word needs, climbs and changes at each place of a net.
#![tactic(auto)]

ghost use Rattle.std.specs.Prelude.{◌≡◌, true};
ghost use Rattle.refusals.specs.Given.{stretch, inside};
ghost use Rattle.summary.specs.Entry.{empty_answer, part_fault, word_answer};
ghost use Rattle.net.specs.Lent.{lent};

use net::{Net, SizedNet};
use refusals::Refusal;
use summary_form::Summary;

// The summary of the empty word on a net of that many places.
pub fn empty_summary(places: usize) -> Result<Summary, Refusal>
    ensures { result ≡ empty_answer places }
{
    refusals::refuse(refusals::is_outside(places), 1, 0)?;
    Ok(summary_form::no_letters(places))
}

// Refusals 1, 2, 18, 17, 4 and 5 for a net and a word.
fn find_fault(net: &Net, part: &[u8], within: bool) -> Result<(), Refusal>
    ensures { result ≡ part_fault (lent net.now) part.now within }
{
    refusals::net_fault(net, within)?;
    refusals::word_fault(net.transitions, part)
}

// The summary of a part of a word; `within` tells whether the part's ends were inside the word.
fn summary_part(net: &Net, part: &[u8], within: bool) -> Result<Summary, Refusal>
    ensures { result ≡ word_answer (lent net.now) part.now within }
{
    find_fault(net, part, within)?;
    let sized = SizedNet { net: *net };
    Ok(Summary {
        places: net.places,
        letters: part.len() as u32,
        slots: summary_place::word_slots(&sized, part),
    })
}

// The summary of a word on a net.
pub fn summary_word(net: &Net, word: &[u8]) -> Result<Summary, Refusal>
    ensures { result ≡ word_answer (lent net.now) word.now true }
{
    summary_part(net, word, true)
}

// The same for the letters from number start up to number end. Positions count from the stretch's
// first letter, and refusals 4 and 5 look at the stretch only.
pub fn summary_stretch(net: &Net, word: &[u8], start: usize, end: usize) -> Result<Summary, Refusal>
    ensures { result ≡ word_answer (lent net.now) (stretch word.now start end) (inside word.now start end) }
{
    match word.get(start..end) {
        Some(part) => summary_part(net, part, true),
        None => summary_part(net, word, false),
    }
}
