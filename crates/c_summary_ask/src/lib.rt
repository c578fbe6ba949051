// A summary asked, for C, as include/kaunorpi.h declares it: a list passes as its pointer and its
// number of entries, and an answer is a struct of document 01's numbers. The export asks the entry of
// its name; of_asked puts an answer's numbers into the struct.
#![tactic(auto)]

ghost use Rattle.std.specs.Prelude.{Ok, ◌≡◌, false};
ghost use Rattle.net.specs.Lent.{lent};
ghost use Rattle.net.specs.Net.{net_of};
ghost use Rattle.refusals.specs.Given.{refuse, or_else, outside, counts_fault};
ghost use Rattle.summary_ask.specs.Ask.{asked_numbers};
ghost use Rattle.summary_ask.specs.declared.Asked.TheVariants.{No};
ghost use Rattle.c_summary_lists.specs.Columns.{columns_of};
ghost use Rattle.c_answer.specs.Hand.{at, handed};
ghost use Rattle.c_summary_ask.specs.Ask.{ask_for, HandedReply};

use c_answer::{ANSWERED, Answer, REFUSED};
use c_summary_lists::Lists;
use ground::Weight;
use net::{Lent, Net};
use refusals::Refusal;
use summary_ask::Asked;

// Yes or no, in 01's numbers.
fn said(asked: Asked) -> u8
    ensures { result ≡ at 1 (asked_numbers (Ok asked)) }
{
    match asked {
        Asked::Yes => 0,
        Asked::No => 1,
    }
}

// The answer of a summary that was asked, in 01's numbers.
fn of_asked(answer: Result<Asked, Refusal>) -> Answer
    ensures { result ≡ handed (asked_numbers answer) }
{
    match answer {
        Ok(asked) => Answer {
            kind: ANSWERED,
            number: said(asked),
            position: 0,
        },
        Err(why) => Answer {
            kind: REFUSED,
            number: why.number,
            position: why.at,
        },
    }
}

// Refusals 1 and 2 of a question whose lists have another length than 64; it is always one of them.
fn refuse_asked(count: usize, net: &Net) -> Result<Asked, Refusal>
    ensures { result ≡ or_else (refuse (outside count) 1 0) (or_else (counts_fault (lent net.now) false) (Ok No)) }
{
    refusals::refuse(refusals::is_outside(count), 1, 0)?;
    refusals::counts_fault(net, false)?;
    Ok(Asked::No)
}

// Whether the word of a summary fires from a marking.
#[unsafe(no_mangle)]
pub extern "C" fn kaunorpi_ask_summary(
    places: usize,
    transitions: usize,
    pre: &[Weight],
    post: &[Weight],
    caps: &[u16],
    marks: &[u8],
    marking: &[u16],
    count: usize,
    letters: u32,
    need: &[u32],
    climb: &[u32],
    change: &[i32],
    room: &mut [u32],
) -> Answer
    ensures { HandedReply (ask_for (net_of places transitions pre.now post.now caps.now marks.now) marking.now count letters (columns_of need.now climb.now change.now) room.old) result room.new }
{
    let net = Lent {
        places,
        transitions,
        pre,
        post,
        caps,
        marks,
    };
    let lists = Lists {
        need,
        climb,
        change,
    };
    if lists.is_fitting() {
        let summary = c_summary_answer::lent_summary(count, letters, &lists);
        let answer = summary_ask::ask_summary(&net, marking, summary, room);
        return of_asked(answer);
    }
    of_asked(refuse_asked(count, &net))
}
