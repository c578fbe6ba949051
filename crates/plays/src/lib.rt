// Inner: a word played on a net, letter by letter, from a marking that any number of letters may have led to.
#![tactic(auto)]

ghost use Rattle.std.specs.Prelude.{◌≡◌, ◌+◌, ◌≤◌, length};
ghost use Rattle.ground.specs.Limits.{tokens_after, word_limit};
ghost use Rattle.net.specs.Lent.{lent};
ghost use Rattle.net.specs.Net.{Sized, Light};
ghost use Rattle.net.specs.Letter.{Small};
ghost use Rattle.refusals.specs.Given.{Letters};
ghost use Rattle.plays.specs.Replay.{Ended};

use net::{Cause, Net, SizedNet, WideNet};

// What became of a word: it fired, with the number of letters; or it is blocked, with the position of
// the letter that is not enabled and its cause.
#[derive(Clone, Copy)]
pub enum Replay {
    Fired(usize),
    Blocked(usize, Cause),
}

// A word, letter by letter, up to the first that is not enabled; `fired` letters came before it, and
// positions count from the first of those.
fn play_letters(net: &WideNet, fired: usize, word: &[u8], marking: &mut [u32]) -> Replay
    requires sized { Sized (lent net.now) }
    requires light { Light (lent net.now) }
    requires marking_len { length marking.old ≡ net.now.places }
    requires small { Small (tokens_after fired) marking.old }
    requires letters { Letters net.now.transitions word.now }
    requires word_bound { fired + length word.now ≤ word_limit }
    ensures { Ended (lent net.now) fired marking.old word.now result marking.new }
{
    for (i, t) in word.iter().enumerate() {
        if let Err(why) = net::play_letter(net, *t, marking) {
            return Replay::Blocked(fired + i, why);
        }
    }
    Replay::Fired(fired + word.len())
}

// The same for a net as lent: its capacities and marks are copied once a word.
pub fn play_word(sized: &SizedNet, fired: usize, word: &[u8], marking: &mut [u32]) -> Replay
    requires light { Light (lent sized.now.net) }
    requires marking_len { length marking.old ≡ sized.now.net.places }
    requires small { Small (tokens_after fired) marking.old }
    requires letters { Letters sized.now.net.transitions word.now }
    requires word_bound { fired + length word.now ≤ word_limit }
    ensures { Ended (lent sized.now.net) fired marking.old word.now result marking.new }
{
    let caps = net::wide_caps(sized.net.caps);
    let marks = net::wide_marks(sized.net.marks);
    let wide = net::widened(&sized.net, &caps, &marks);
    play_letters(&wide, fired, word, marking)
}
