// Replay of a word on a net: whether the events could have happened in this order, and if not, at
// which letter and for which cause.
#![tactic(auto)]

ghost use Rattle.std.specs.Prelude.{◌≡◌, true, ◌&&◌, eqb};
ghost use Rattle.refusals.specs.Given.{stretch, inside};
ghost use Rattle.replay.specs.Entry.{replay_fault, Replayed};
ghost use Rattle.net.specs.Lent.{lent};

use net::{Net, SizedNet};
pub use plays::Replay;
use refusals::Refusal;

// Refusals 1 to 5, 17 and 18. It is not lent the room, so a refusal cannot touch it.
fn find_fault(net: &Net, initial: &[u16], word: &[u8], fits: bool) -> Result<(), Refusal>
    ensures { result ≡ replay_fault (lent net.now) initial.now word.now fits }
{
    refusals::marked_fault(net, initial, fits)?;
    refusals::word_fault(net.transitions, word)
}

// Whether the room has a number for each place, and the part's ends were inside its word.
fn is_fitting(room: usize, places: usize, within: bool) -> bool
    ensures { result ≡ (eqb room places && within) }
{
    room == places && within
}

// The replay of a part of a word; `within` tells whether the part's ends were inside the word.
fn replay_part(
    net: &Net,
    initial: &[u16],
    part: &[u8],
    within: bool,
    room: &mut [u32],
) -> Result<Replay, Refusal>
    ensures { Replayed (lent net.now) initial.now part.now within room.old result room.new }
{
    let fits = is_fitting(room.len(), net.places, within);
    find_fault(net, initial, part, fits)?;
    let sized = SizedNet { net: *net };
    net::load(initial, room);
    Ok(plays::play_word(&sized, 0, part, room))
}

// The replay of a word on a net from its initial marking. The room, a number for each place,
// holds the marking after the last letter fired; a refusal leaves it as found.
pub fn replay_word(
    net: &Net,
    initial: &[u16],
    word: &[u8],
    room: &mut [u32],
) -> Result<Replay, Refusal>
    ensures { Replayed (lent net.now) initial.now word.now true room.old result room.new }
{
    replay_part(net, initial, word, true, room)
}

// The same for the letters from number start up to number end. Positions count from the stretch's
// first letter, and refusals 4 and 5 look at the stretch only.
pub fn replay_stretch(
    net: &Net,
    initial: &[u16],
    word: &[u8],
    start: usize,
    end: usize,
    room: &mut [u32],
) -> Result<Replay, Refusal>
    ensures { Replayed (lent net.now) initial.now (stretch word.now start end) (inside word.now start end) room.old result room.new }
{
    match word.get(start..end) {
        Some(part) => replay_part(net, initial, part, true, room),
        None => replay_part(net, initial, word, false, room),
    }
}
