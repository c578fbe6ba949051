// Inner: a list of either kind asked, and a target after it: which refusal, else whether the list has
// the initial marking and every result.
#![tactic(auto)]

ghost use Rattle.std.specs.Prelude.{◌≡◌, ◌≤◌, length};
ghost use Rattle.ground.specs.Limits.{list_limit};
ghost use Rattle.net.specs.Lent.{lent};
ghost use Rattle.net.specs.Net.{Sized};
ghost use Rattle.refusals.specs.Given.{or_else, loose_fault};
ghost use Rattle.lists.specs.Whole.{count};
ghost use Rattle.list_pairs.specs.Look.{Ready, Kept, looked};
ghost use Rattle.list_check.specs.Given.{given_fault, list_of, target_of};

use lists::{ClaimAnswer, Failure, Kind, ListAnswer, Markings};
use net::{Net, SizedNet};
use refusals::Refusal;

// A list that is not refused: whether it has the initial marking and every result.
fn look_through(kind: Kind, net: &Net, initial: &[u16], list: &[u16]) -> ListAnswer
    requires ready { Ready (lent net.now) (count net.now.places list.now) list.now }
    requires initial_len { length initial.now ≡ net.now.places }
    requires list_bound { count net.now.places list.now ≤ list_limit }
    requires kept { Kept kind (lent net.now) (count net.now.places list.now) list.now }
    ensures { result ≡ looked kind (lent net.now) initial.now list.now }
{
    let markings = Markings::new(net.places, list);
    if lists::holds(kind, &markings, initial) {
        return list_pairs::look_up(kind, net, &markings);
    }
    ListAnswer::Failed(Failure::InitialMissing)
}

// The 3 of what is lent after the list, then 17.
fn then_loose(sized: &SizedNet, next: Result<(), Refusal>) -> Result<(), Refusal>
    ensures { result ≡ or_else next (loose_fault (lent sized.now.net)) }
{
    next?;
    refusals::loose_fault(sized)
}

// Refusals 1, 2, 18, 3, 17 and 9. `fits` tells whether the length of what is lent after the list agrees,
// and `next` is what 3 makes of it.
fn find_fault(
    kind: Kind,
    net: &Net,
    initial: &[u16],
    list: &[u16],
    fits: bool,
    next: Result<(), Refusal>,
) -> Result<(), Refusal>
    ensures { result ≡ given_fault kind (lent net.now) initial.now list.now fits next }
{
    let agree = list_refusals::is_fitting(net.places, list, fits);
    refusals::start_fault(net, initial, agree)?;
    let later = then_loose(&SizedNet { net: *net }, next);
    list_refusals::list_fault(kind, net.places, net.caps, list, later)
}

// The list's answer, with what is lent after it.
pub fn check_list(
    kind: Kind,
    net: &Net,
    initial: &[u16],
    list: &[u16],
    fits: bool,
    next: Result<(), Refusal>,
) -> Result<ListAnswer, Refusal>
    ensures { result ≡ list_of kind (lent net.now) initial.now list.now fits next }
{
    find_fault(kind, net, initial, list, fits, next)?;
    Ok(look_through(kind, net, initial, list))
}

// Whether an accepted list shows that a target is never reached, or never covered: where the list
// does not hold or cover it.
pub fn check_target(
    kind: Kind,
    net: &Net,
    initial: &[u16],
    list: &[u16],
    target: &[u16],
) -> Result<ClaimAnswer, Refusal>
    ensures { result ≡ target_of kind (lent net.now) initial.now list.now target.now }
{
    let fits = target.len() == net.places;
    let next = list_refusals::target_fault(target);
    let answer = check_list(kind, net, initial, list, fits, next)?;
    match answer {
        ListAnswer::Failed(why) => Ok(ClaimAnswer::Failed(why)),
        ListAnswer::Accepted => {
            let markings = Markings::new(net.places, list);
            if lists::holds(kind, &markings, target) {
                Ok(ClaimAnswer::NotShown)
            } else {
                Ok(ClaimAnswer::Shown)
            }
        }
    }
}
