// Inner: the slots of all places of a summary, asked against a marking.
#![tactic(auto)]

ghost use Rattle.std.specs.Prelude.{◌≡◌, ◌≤◌, length};
ghost use Rattle.ground.specs.Limits.{count_limit};
ghost use Rattle.ground.specs.Lists.{found};
ghost use Rattle.summary_asked.specs.Asked.{no_at, lowest_no, end_at, ends};
ghost use Rattle.summary_place.specs.Walk.{slot_limit, Well, Wells};
ghost use Rattle.summary_asked.specs.Walk.{NeedsMet};

use ground::{COUNT_LIMIT, NO_CAPACITY};
use summary_place::Slot;

// One place says no: its tokens do not cover the need, or with the climb they pass its capacity.
fn is_no(need: u32, climb: u32, cap: u16, tokens: u16) -> bool
    requires { climb ≤ slot_limit }
    ensures { result ≡ no_at need climb cap tokens }
{
    let held = u32::from(tokens);
    held < need || cap < NO_CAPACITY && u32::from(cap) < held + climb
}

// The lowest place that says no, if there is one.
pub fn lowest_no(slots: [Slot; COUNT_LIMIT], caps: &[u16], marking: &[u16]) -> Option<usize>
    requires caps_len { length caps.now ≡ length marking.now }
    requires marking_len_bound { length marking.now ≤ count_limit }
    requires wells { Wells slot_limit slots }
    ensures { result ≡ found (length marking.now) (lowest_no slots caps.now marking.now) }
{
    for p in 0..marking.len() {
        if is_no(slots[p].need, slots[p].climb, caps[p], marking[p]) {
            return Some(p);
        }
    }
    None
}

// One place's tokens at the end.
fn end_at(s: Slot, tokens: u16) -> u32
    requires well { Well slot_limit s }
    requires need_le_tokens { s.need ≤ tokens }
    ensures { result ≡ end_at s tokens }
{
    u32::from(tokens) + ground::up_part(s.change) - ground::down_part(s.change)
}

// The end marking into the room.
pub fn write_end(slots: [Slot; COUNT_LIMIT], marking: &[u16], room: &mut [u32])
    requires room_len { length room.old ≡ length marking.now }
    requires marking_len_bound { length marking.now ≤ count_limit }
    requires wells { Wells slot_limit slots }
    requires needs_met { NeedsMet slots marking.now }
    ensures { room.new ≡ ends slots marking.now }
{
    for p in 0..room.len() {
        room[p] = end_at(slots[p], marking[p]);
    }
}
