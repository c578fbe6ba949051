// Two recorders, one line: two logs put into an order that keeps each log's own and that the line
// could have run.
#![tactic(auto)]

ghost use Rattle.std.specs.Prelude.{◌≡◌, ◌&&◌, ◌+◌, eqb, length};
ghost use Rattle.orders.specs.Lengths.{work_length};
ghost use Rattle.order.specs.Entry.{logs_fault, order_fault, Ordered};
ghost use Rattle.net.specs.Lent.{lent};

use net::Net;
use orders::{Logs, WORK_LENGTH};
use refusals::Refusal;

// The answer for two logs: an order was found and stands in the room, 0 for a step that takes from
// the first log, 1 from the second; or none fires.
#[derive(Clone, Copy)]
pub enum LogOrder {
    Found,
    NoneFires,
}

// Whether the room has a step for each letter of both logs, and the work space its bytes. Nothing is
// added, so that no sum of over-long logs is too large.
fn is_fitting(logs: &Logs, room: usize, work: usize) -> bool
    ensures { result ≡ (eqb room (length logs.now.first.now + length logs.now.second.now) && eqb work work_length) }
{
    logs.first.len() <= room && room - logs.first.len() == logs.second.len() && work == WORK_LENGTH
}

// Refusals 4, 15 and 5 of two logs.
#[tactic(auto, unfolding(crate::specs::Entry::logs_fault))]
fn logs_fault(transitions: usize, logs: &Logs) -> Result<(), Refusal>
    ensures { result ≡ logs_fault transitions logs.now.first.now logs.now.second.now }
{
    orders::long_fault(logs.first.len(), logs.second.len())?;
    refusals::word_fault(transitions, logs.first)?;
    refusals::word_fault(transitions, logs.second)
}

// Refusals 1 to 5, 15, 17 and 18. It is not lent the rooms, so a refusal cannot touch them.
#[tactic(auto, unfolding(crate::specs::Entry::order_fault))]
fn find_fault(net: &Net, initial: &[u16], logs: &Logs, fits: bool) -> Result<(), Refusal>
    ensures { result ≡ order_fault (lent net.now) initial.now logs.now.first.now logs.now.second.now fits }
{
    refusals::marked_fault(net, initial, fits)?;
    logs_fault(net.transitions, logs)
}

// The order of two logs that fires from the initial marking; of several the one that takes from the
// first log at the earliest step where two differ. The room, a byte for each letter of both logs,
// holds it. "None" leaves the room as found, a refusal the work space too.
pub fn order_logs(
    net: &Net,
    initial: &[u16],
    logs: &Logs,
    room: &mut [u8],
    work: &mut [u8],
) -> Result<LogOrder, Refusal>
    ensures { Ordered (lent net.now) initial.now logs.now.first.now logs.now.second.now room.old work.old result room.new work.new }
{
    let fits = is_fitting(logs, room.len(), work.len());
    find_fault(net, initial, logs, fits)?;
    if order_find::find_order(net, initial, logs, room, work) {
        Ok(LogOrder::Found)
    } else {
        Ok(LogOrder::NoneFires)
    }
}
