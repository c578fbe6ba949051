// Inner: what a word needs, climbs and changes at one place of a net, and the slots of all places.
#![tactic(auto)]

ghost use Rattle.std.specs.Prelude.{◌≡◌, ◌+◌, ◌^◌, ◌<◌, ◌≤◌, length, replicate};
ghost use Rattle.ground.specs.Limits.{count_limit, word_limit};
ghost use Rattle.net.specs.Lent.{lent};
ghost use Rattle.net.specs.Net.{Light, Sized};
ghost use Rattle.refusals.specs.Given.{Letters};
ghost use Rattle.summary_place.specs.Place.{letter_at};
ghost use Rattle.summary_place.specs.Slots.{nil, slot_of, slots_of};
ghost use Rattle.summary_place.specs.Walk.{step};

use ground::COUNT_LIMIT;
use net::{Net, SizedNet};

// What a word needs, climbs and changes at one place.
#[derive(Clone, Copy)]
pub struct Slot {
    pub need: u32,
    pub climb: u32,
    pub change: i32,
}

// The slots of the empty word.
pub fn no_slots() -> [Slot; COUNT_LIMIT]
    ensures { result ≡ replicate count_limit nil }
{
    [Slot {
        need: 0,
        climb: 0,
        change: 0,
    }; COUNT_LIMIT]
}

// The larger of x and y + l - g.
pub fn larger(x: u32, y: u32, l: u32, g: u32) -> u32
    requires { y + l < 2 ^ 32 }
    ensures { result ≡ step x y l g }
{
    x.max((y + l).saturating_sub(g))
}

// One place of a word's summary, from what the letters so far have lost and gained there. Which of
// the two capacity rules the place has is the same for every letter.
fn slot_of(sized: &SizedNet, p: usize, word: &[u8]) -> Slot
    requires light { Light (lent sized.now.net) }
    requires p_lt_places { p < sized.now.net.places }
    requires word_len_bound { length word.now ≤ word_limit }
    requires letters { Letters sized.now.net.transitions word.now }
    ensures { result ≡ slot_of (letter_at (lent sized.now.net) p) word.now }
{
    let mark = net::mark_in_force(sized.net.caps[p], sized.net.marks[p]);
    let mut gained: u32 = 0;
    let mut lost: u32 = 0;
    let mut need: u32 = 0;
    let mut climb: u32 = 0;
    for i in 0..word.len() {
        let t = usize::from(word[i]);
        let takes = sized.pre_at(p, t);
        let puts = sized.post_at(p, t);
        let rises = net::rise(mark, takes, puts);
        need = larger(need, u32::from(takes), lost, gained);
        climb = larger(climb, u32::from(rises), gained, lost);
        gained += u32::from(puts);
        lost += u32::from(takes);
    }
    let change = ground::less(gained, lost);
    Slot {
        need,
        climb,
        change,
    }
}

// All places of a word's summary.
pub fn word_slots(sized: &SizedNet, word: &[u8]) -> [Slot; COUNT_LIMIT]
    requires light { Light (lent sized.now.net) }
    requires word_len_bound { length word.now ≤ word_limit }
    requires letters { Letters sized.now.net.transitions word.now }
    ensures { result ≡ slots_of (lent sized.now.net) word.now }
{
    let mut slots = no_slots();
    for p in 0..sized.net.places {
        slots[p] = slot_of(sized, p, word);
    }
    slots
}
