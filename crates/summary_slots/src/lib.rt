// Inner: the slots of all places of a summary: joined, and judged by refusal 6.
#![tactic(auto)]

ghost use Rattle.std.specs.Prelude.{◌≡◌};
ghost use Rattle.ground.specs.Limits.{count_limit};
ghost use Rattle.ground.specs.Lists.{found};
ghost use Rattle.summary_place.specs.Slots.{joined, joined_all, slot_bad, bad_at, bad_slot};
ghost use Rattle.summary_place.specs.Walk.{slot_limit, Well, Wells};

use ground::COUNT_LIMIT;
use summary_place::Slot;

// One place of a then b.
fn join_slot(a: Slot, b: Slot) -> Slot
    requires { Well slot_limit a × Well slot_limit b }
    ensures { result ≡ joined a b }
{
    let u = ground::up_part(a.change);
    let d = ground::down_part(a.change);
    Slot {
        need: summary_place::larger(a.need, b.need, d, u),
        climb: summary_place::larger(a.climb, b.climb, u, d),
        change: ground::less(
            u + ground::up_part(b.change),
            d + ground::down_part(b.change),
        ),
    }
}

// All places of a then b.
pub fn join_slots(a: [Slot; COUNT_LIMIT], b: [Slot; COUNT_LIMIT]) -> [Slot; COUNT_LIMIT]
    requires wells { Wells slot_limit a }
    requires wells_2 { Wells slot_limit b }
    ensures { result ≡ joined_all a b }
{
    let mut both = a;
    for p in 0..COUNT_LIMIT {
        both[p] = join_slot(both[p], b[p]);
    }
    both
}

// Whether a slot is not well formed, where cap is the largest weight times the letters.
fn is_bad(s: Slot, cap: u32) -> bool
    ensures { result ≡ slot_bad cap s }
{
    let up = ground::up_part(s.change);
    let down = ground::down_part(s.change);
    cap < s.need || cap < s.climb || s.need < down || s.climb < up
}

// The same for the slot of place p: past the places it has to be zero.
fn is_bad_at(places: usize, cap: u32, p: usize, s: Slot) -> bool
    ensures { result ≡ bad_at places cap p s }
{
    is_bad(s, if p < places { cap } else { 0 })
}

// The lowest slot that is not well formed, if there is one.
pub fn bad_slot(places: usize, cap: u32, slots: [Slot; COUNT_LIMIT]) -> Option<usize>
    ensures { result ≡ found count_limit (bad_slot places cap slots) }
{
    for p in 0..COUNT_LIMIT {
        if is_bad_at(places, cap, p, slots[p]) {
            return Some(p);
        }
    }
    None
}
