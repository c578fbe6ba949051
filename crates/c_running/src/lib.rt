// Running replay for C, as include/kaunorpi.h declares it: the state is a struct of the caller's, lent by its
// pointer and changed in place.
#![tactic(auto)]

ghost use Rattle.std.specs.Prelude.{Ok, ◌≡◌};
ghost use Rattle.net.specs.Net.{net_of};
ghost use Rattle.running.specs.State.{fed_of};
ghost use Rattle.running.specs.Entry.{numbers, start_of};
ghost use Rattle.c_replay.specs.Handed.{handed_replay};
ghost use Rattle.c_running.specs.Handed.{begun, HandedPart};

use c_answer::{ANSWERED, REFUSED};
use c_replay::ReplayAnswer;
use ground::Weight;
use net::Lent;
use refusals::Refusal;
use running::{Fed, Part, Running};

// An answer to a part that is no refusal, in 01's numbers.
fn of_played(part: Part) -> ReplayAnswer
    ensures { result ≡ handed_replay (numbers (Ok part)) }
{
    match part {
        Part::Fired(letters) => ReplayAnswer {
            kind: ANSWERED,
            number: 0,
            position: letters,
            place: 0,
        },
        Part::Blocked(cause, at, place) => ReplayAnswer {
            kind: ANSWERED,
            number: cause,
            position: at,
            place,
        },
    }
}

// The answer to a part, in 01's numbers.
fn of_part(answer: Result<Part, Refusal>) -> ReplayAnswer
    ensures { result ≡ handed_replay (numbers answer) }
{
    match answer {
        Ok(part) => of_played(part),
        Err(why) => ReplayAnswer {
            kind: REFUSED,
            number: why.number,
            position: why.at,
            place: 0,
        },
    }
}

// What a start leaves: the state found where it is refused.
fn after_start(fed: Fed, state: Running) -> Fed
    ensures { result ≡ begun fed state }
{
    match fed.answer {
        Ok(_) => fed,
        Err(why) => Fed {
            state,
            answer: Err(why),
        },
    }
}

// Sets a state to the net's initial marking, before the first part. A refusal leaves it as found.
#[unsafe(no_mangle)]
pub extern "C" fn kaunorpi_start_replay(
    places: usize,
    transitions: usize,
    pre: &[Weight],
    post: &[Weight],
    caps: &[u16],
    marks: &[u8],
    initial: &[u16],
    state: &mut Running,
) -> ReplayAnswer
    ensures { HandedPart (begun (start_of (net_of places transitions pre.now post.now caps.now marks.now) initial.now) state.old) result state.new }
{
    let net = Lent {
        places,
        transitions,
        pre,
        post,
        caps,
        marks,
    };
    let out = after_start(running::start_replay(&net, initial), *state);
    *state = out.state;
    of_part(out.answer)
}

// Plays a part of a log on a state. A refusal, and a part after a block, leave it as found.
#[unsafe(no_mangle)]
pub extern "C" fn kaunorpi_replay_part(
    places: usize,
    transitions: usize,
    pre: &[Weight],
    post: &[Weight],
    caps: &[u16],
    marks: &[u8],
    state: &mut Running,
    part: &[u8],
) -> ReplayAnswer
    ensures { HandedPart (fed_of (net_of places transitions pre.now post.now caps.now marks.now) state.old part.now) result state.new }
{
    let net = Lent {
        places,
        transitions,
        pre,
        post,
        caps,
        marks,
    };
    let answer = running::replay_part(&net, state, part);
    of_part(answer)
}
