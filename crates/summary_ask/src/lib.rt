// A summary asked whether a marking lets its word fire.
#![tactic(auto)]

ghost use Rattle.std.specs.Prelude.{Ok, ◌≡◌, ◌&&◌, ◌≤◌, eqb, length};
ghost use Rattle.ground.specs.Limits.{count_limit};
ghost use Rattle.summary_place.specs.Walk.{slot_limit, Wells};
ghost use Rattle.summary_ask.specs.Ask.{ask_fault, Replied};
ghost use Rattle.summary_ask.specs.Walk.{SlotsAsked};
ghost use Rattle.net.specs.Lent.{lent};

use ground::COUNT_LIMIT;
use net::Net;
use refusals::Refusal;
use summary_form::Summary;
use summary_place::Slot;

// The answer to a summary asked against a marking.
#[derive(Clone, Copy)]
pub enum Asked {
    Yes,
    No,
}

// Refusals 1, 2, 18, 3, 17 and 6 for a net, its marking and a summary; `roomy` tells whether the
// room's length is right. It is not lent the room, so a refusal cannot touch it.
fn ask_fault(net: &Net, marking: &[u16], summary: Summary, roomy: bool) -> Result<(), Refusal>
    ensures { result ≡ ask_fault (lent net.now) marking.now summary roomy }
{
    refusals::refuse(refusals::is_outside(summary.places), 1, 0)?;
    refusals::marked_fault(net, marking, same_count(roomy, summary.places, net.places))?;
    summary_form::shape_fault(summary)
}

// Whether the room fits, and the summary's place count is the net's.
fn same_count(roomy: bool, count: usize, places: usize) -> bool
    ensures { result ≡ (roomy && eqb count places) }
{
    roomy && count == places
}

// Yes with the end marking in the room, or no with the room untouched.
fn ask_slots(slots: [Slot; COUNT_LIMIT], caps: &[u16], marking: &[u16], room: &mut [u32]) -> Asked
    requires caps_len { length caps.now ≡ length marking.now }
    requires room_len { length room.old ≡ length marking.now }
    requires marking_len_bound { length marking.now ≤ count_limit }
    requires wells { Wells slot_limit slots }
    ensures { SlotsAsked slots caps.now marking.now room.old (Ok result) room.new }
{
    if summary_asked::lowest_no(slots, caps, marking).is_some() {
        return Asked::No;
    }
    summary_asked::write_end(slots, marking, room);
    Asked::Yes
}

// Whether the word of a summary fires from a marking. The room, a number for each place, holds
// the end marking where the answer is yes; a no and a refusal leave it as found.
pub fn ask_summary(
    net: &Net,
    marking: &[u16],
    summary: Summary,
    room: &mut [u32],
) -> Result<Asked, Refusal>
    ensures { Replied (lent net.now) marking.now summary room.old result room.new }
{
    ask_fault(net, marking, summary, room.len() == net.places)?;
    Ok(ask_slots(summary.slots, net.caps, marking, room))
}
