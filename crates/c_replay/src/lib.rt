// Replays for C, as include/kaunorpi.h declares them: a list passes
// as its pointer and its number of entries, and an answer is a struct of document 01's numbers. Each
// export asks the entry of its name; a function of_.. puts an answer's numbers into the struct. Since
// c_running stands on this crate too, it is a library, and c_replay_c hands its exports to C.
#![tactic(auto)]

ghost use Rattle.std.specs.Prelude.{◌≡◌, true, [], ◌∷◌};
ghost use Rattle.net.specs.Net.{net_of};
ghost use Rattle.net.specs.Firing.{cause_number, cause_values};
ghost use Rattle.refusals.specs.Given.{stretch, inside};
ghost use Rattle.replay.specs.Entry as replay;
ghost use Rattle.replay.specs.Entry.{replay_of};
ghost use Rattle.c_replay.specs.Handed.{handed_replay, HandedReplay};

use c_answer::{ANSWERED, REFUSED};
use ground::Weight;
use net::{Cause, Lent};
use refusals::Refusal;
use replay::Replay;

// What a replay's answer says.
#[repr(C)]
#[derive(Clone, Copy)]
pub struct ReplayAnswer {
    pub kind: u8,
    pub number: u8,
    pub position: usize,
    pub place: usize,
}

// A block: 1 short or 2 over, with the letter and the place.
#[tactic(auto, unfolding(crate::specs::Handed::handed_replay))]
fn of_block(at: usize, why: Cause) -> ReplayAnswer
    ensures { result ≡ handed_replay (0x81 ∷ cause_number why ∷ at ∷ cause_values why) }
{
    match why {
        Cause::Short(short) => ReplayAnswer {
            kind: ANSWERED,
            number: 1,
            position: at,
            place: short,
        },
        Cause::Over(over) => ReplayAnswer {
            kind: ANSWERED,
            number: 2,
            position: at,
            place: over,
        },
    }
}

// The answer to a replay, in 01's numbers.
#[tactic(auto, unfolding(crate::specs::Handed::handed_replay))]
fn of_replay(answer: Result<Replay, Refusal>) -> ReplayAnswer
    ensures { result ≡ handed_replay (replay.numbers answer) }
{
    match answer {
        Ok(Replay::Fired(letters)) => ReplayAnswer {
            kind: ANSWERED,
            number: 0,
            position: letters,
            place: 0,
        },
        Ok(Replay::Blocked(at, why)) => of_block(at, why),
        Err(why) => ReplayAnswer {
            kind: REFUSED,
            number: why.number,
            position: why.at,
            place: 0,
        },
    }
}

// Whether the letters of a word can happen in this order.
pub fn kaunorpi_replay_word(
    places: usize,
    transitions: usize,
    pre: &[Weight],
    post: &[Weight],
    caps: &[u16],
    marks: &[u8],
    initial: &[u16],
    word: &[u8],
    room: &mut [u32],
) -> ReplayAnswer
    ensures { HandedReplay (replay_of (net_of places transitions pre.now post.now caps.now marks.now) initial.now word.now true room.old) result room.new }
{
    let net = Lent {
        places,
        transitions,
        pre,
        post,
        caps,
        marks,
    };
    of_replay(replay::replay_word(&net, initial, word, room))
}

// The same for the letters from number start up to number end.
pub fn kaunorpi_replay_stretch(
    places: usize,
    transitions: usize,
    pre: &[Weight],
    post: &[Weight],
    caps: &[u16],
    marks: &[u8],
    initial: &[u16],
    word: &[u8],
    start: usize,
    end: usize,
    room: &mut [u32],
) -> ReplayAnswer
    ensures { HandedReplay (replay_of (net_of places transitions pre.now post.now caps.now marks.now) initial.now (stretch word.now start end) (inside word.now start end) room.old) result room.new }
{
    let net = Lent {
        places,
        transitions,
        pre,
        post,
        caps,
        marks,
    };
    of_replay(replay::replay_stretch(&net, initial, word, start, end, room))
}
