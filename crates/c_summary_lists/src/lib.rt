// Inner: a summary's slots as the three lists that C lends, need, climb and change, and back.
#![tactic(auto)]

ghost use Rattle.std.specs.Prelude.{◌≡◌, true};
ghost use Rattle.c_summary_lists.specs.Columns.{columns_of, lengths_fit, fits, slots_from, columns_from};
ghost use Rattle.c_summary_lists.specs.Lists.{columns_in};

use ground::COUNT_LIMIT;
use summary_place::Slot;

// Whether three lists so long have an entry for each slot.
pub fn is_fitting(need: usize, climb: usize, change: usize) -> bool
    ensures { result ≡ lengths_fit need climb change }
{
    need == COUNT_LIMIT && climb == COUNT_LIMIT && change == COUNT_LIMIT
}

// A summary's slots as C lends them: a list each of their needs, climbs and changes.
#[derive(Clone, Copy)]
pub struct Lists<'a> {
    pub need: &'a [u32],
    pub climb: &'a [u32],
    pub change: &'a [i32],
}

impl<'a> Lists<'a> {
    // Whether each list has an entry for each slot.
    pub fn is_fitting(&self) -> bool
        ensures { result ≡ fits (columns_in self.now) }
    {
        is_fitting(self.need.len(), self.climb.len(), self.change.len())
    }

    // The slots that the lists spell.
    pub fn read_slots(&self) -> [Slot; COUNT_LIMIT]
        requires { fits (columns_in self.now) ≡ true }
        ensures { result ≡ slots_from (columns_in self.now) }
    {
        let mut slots = summary_place::no_slots();
        for p in 0..COUNT_LIMIT {
            slots[p] = Slot {
                need: self.need[p],
                climb: self.climb[p],
                change: self.change[p],
            };
        }
        slots
    }
}

// All slots, into three lists.
pub fn write_slots(
    slots: [Slot; COUNT_LIMIT],
    need: &mut [u32],
    climb: &mut [u32],
    change: &mut [i32],
)
    requires { fits (columns_of need.old climb.old change.old) ≡ true }
    ensures { columns_of need.new climb.new change.new ≡ columns_from slots }
{
    for p in 0..COUNT_LIMIT {
        need[p] = slots[p].need;
        climb[p] = slots[p].climb;
        change[p] = slots[p].change;
    }
}
