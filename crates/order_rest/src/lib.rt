// The clerk's screen: for a step of an order, the unread rest of the log that the step takes from.
#![tactic(auto)]

ghost use Rattle.std.specs.Prelude.{◌≡◌, ◌<◌, length};
ghost use Rattle.order_rest.specs.Rest.{fits, read_at, rest_of, Told};

use orders::Logs;
use refusals::{Refusal, refuse};

// Whether the order is made of as many 0s and 1s as the logs have letters and of nothing else, and has
// the step. Nothing is added, so that no sum is too large.
fn is_fitting(logs: &Logs, order: &[u8], step: usize) -> bool
    ensures { result ≡ fits (length logs.now.first.now) (length logs.now.second.now) order.now step }
{
    let zeros = orders::read_of(order, order.len(), 0);
    let ones = orders::read_of(order, order.len(), 1);
    zeros == logs.first.len()
        && ones == logs.second.len()
        && order.len() - zeros == ones
        && step < order.len()
}

// Refusals 4, 15 and 16 for a step of an order of two logs, or nothing: then `unread_rest` hands a
// part over.
pub fn rest_fault(logs: &Logs, order: &[u8], step: usize) -> Result<(), Refusal>
    ensures { Told logs.now.first.now logs.now.second.now order.now step result }
{
    orders::long_fault(logs.first.len(), logs.second.len())?;
    refuse(!is_fitting(logs, order, step), 16, 0)
}

// How many letters of the step's own log are read before the step: its letter has this number there.
fn read_before(order: &[u8], step: usize) -> usize
    requires { step < length order.now }
    ensures { result ≡ read_at order.now step }
{
    orders::read_of(order, step, order[step])
}

// The unread rest of whichever log the step takes from, as it lies there, from that step's letter on;
// an empty part where the question is refused.
pub fn unread_rest<'a>(logs: &Logs<'a>, order: &[u8], step: usize) -> &'a [u8]
    ensures { result.now ≡ rest_of logs.now.first.now logs.now.second.now order.now step }
{
    match rest_fault(logs, order, step) {
        Err(_) => &logs.first[..0],
        Ok(()) => {
            let n = read_before(order, step);
            if order[step] == 0 {
                &logs.first[n..]
            } else {
                &logs.second[n..]
            }
        }
    }
}
