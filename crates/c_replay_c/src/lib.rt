// The exports of c_replay, as include/kaunorpi.h declares them: each asks the function of its name there,
// with the same clause. A crate that others stand on exports nothing, so they stand here.
#![tactic(auto)]

ghost use Rattle.std.specs.Prelude.{true};
ghost use Rattle.net.specs.Net.{net_of};
ghost use Rattle.refusals.specs.Given.{stretch, inside};
ghost use Rattle.replay.specs.Entry.{replay_of};
ghost use Rattle.c_replay.specs.Handed.{HandedReplay};

use c_replay::ReplayAnswer;
use ground::Weight;

// Whether the letters of a word can happen in this order.
#[unsafe(no_mangle)]
pub extern "C" fn kaunorpi_replay_word(
    places: usize,
    transitions: usize,
    pre: &[Weight],
    post: &[Weight],
    caps: &[u16],
    marks: &[u8],
    initial: &[u16],
    word: &[u8],
    room: &mut [u32],
) -> ReplayAnswer
    ensures { HandedReplay (replay_of (net_of places transitions pre.now post.now caps.now marks.now) initial.now word.now true room.old) result room.new }
{
    c_replay::kaunorpi_replay_word(
        places,
        transitions,
        pre,
        post,
        caps,
        marks,
        initial,
        word,
        room,
    )
}

// The same for the letters from number start up to number end.
#[unsafe(no_mangle)]
pub extern "C" fn kaunorpi_replay_stretch(
    places: usize,
    transitions: usize,
    pre: &[Weight],
    post: &[Weight],
    caps: &[u16],
    marks: &[u8],
    initial: &[u16],
    word: &[u8],
    start: usize,
    end: usize,
    room: &mut [u32],
) -> ReplayAnswer
    ensures { HandedReplay (replay_of (net_of places transitions pre.now post.now caps.now marks.now) initial.now (stretch word.now start end) (inside word.now start end) room.old) result room.new }
{
    c_replay::kaunorpi_replay_stretch(
        places,
        transitions,
        pre,
        post,
        caps,
        marks,
        initial,
        word,
        start,
        end,
        room,
    )
}
