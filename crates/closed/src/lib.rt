// Closed lists: a list of markings that holds the initial marking and every result of its own
// markings holds every reachable one, so what it lacks is never reached.
#![tactic(auto)]

ghost use Rattle.std.specs.Prelude.{◌≡◌, true, Ok, ◌<◌, length};
ghost use Rattle.net.specs.Lent.{lent};
ghost use Rattle.net.specs.Net.{Sized};
ghost use Rattle.lists.specs.Answers.{numbers, claim_numbers};
ghost use Rattle.lists.specs.declared.Kind.TheVariants.{Closed};
ghost use Rattle.list_pairs.specs.Search.{Suits};
ghost use Rattle.list_check.specs.Given.{list_of, target_of};
ghost use Rattle.closed.specs.Stall.{stall_of};
ghost use Rattle.closed.specs.Dead.{enables_none, dead, some_dead};

use lists::{ClaimAnswer, Kind, ListAnswer, Markings};
use net::{Net, WideNet};
use refusals::Refusal;

// Whether a marking enables nothing. It is loaded once, into the room.
fn enables_none(net: &WideNet, listed: &[u16], room: &mut [u32]) -> bool
    requires sized { Sized (lent net.now) }
    requires listed_len { (length listed.now ≡ net.now.places) × (length room.old ≡ net.now.places) }
    ensures { result ≡ enables_none (lent net.now) listed.now }
{
    net::load(listed, room);
    for t in 0..net.transitions {
        if net::may_fire_at(net, t, room) {
            return false;
        }
    }
    true
}

// Whether a listed marking, by its number, enables nothing.
fn is_dead(net: &Net, list: &Markings, k: usize) -> bool
    requires suits { Suits (lent net.now) list.now }
    requires k_lt_count { k < list.now.count }
    ensures { result ≡ dead (lent net.now) list.now.list.now k }
{
    let caps = net::wide_caps(net.caps);
    let marks = net::wide_marks(net.marks);
    let wide = net::widened(net, &caps, &marks);
    let mut room = lists::no_tokens();
    enables_none(&wide, list.marking(k), &mut room[..net.places])
}

// Whether some listed marking enables nothing.
fn some_dead(net: &Net, list: &Markings) -> bool
    requires { Suits (lent net.now) list.now }
    ensures { result ≡ some_dead (lent net.now) list.now.count list.now.list.now }
{
    for k in 0..list.count {
        if is_dead(net, list, k) {
            return true;
        }
    }
    false
}

// Whether a list is closed: it holds the initial marking and, for each listed marking and each
// transition enabled there, the result.
pub fn closed_list(net: &Net, initial: &[u16], list: &[u16]) -> Result<ListAnswer, Refusal>
    ensures { numbers result ≡ numbers (list_of Closed (lent net.now) initial.now list.now true (Ok tt)) }
{
    list_check::check_list(Kind::Closed, net, initial, list, true, Ok(()))
}

// Whether a closed list shows that a target is never reached.
pub fn closed_target(
    net: &Net,
    initial: &[u16],
    list: &[u16],
    target: &[u16],
) -> Result<ClaimAnswer, Refusal>
    ensures { claim_numbers result ≡ claim_numbers (target_of Closed (lent net.now) initial.now list.now target.now) }
{
    list_check::check_target(Kind::Closed, net, initial, list, target)
}

// Whether a closed list shows that the line never stalls.
pub fn closed_stall(net: &Net, initial: &[u16], list: &[u16]) -> Result<ClaimAnswer, Refusal>
    ensures { claim_numbers result ≡ claim_numbers (stall_of (lent net.now) initial.now list.now) }
{
    let answer = list_check::check_list(Kind::Closed, net, initial, list, true, Ok(()))?;
    match answer {
        ListAnswer::Failed(why) => Ok(ClaimAnswer::Failed(why)),
        ListAnswer::Accepted => {
            let markings = Markings::new(net.places, list);
            if some_dead(net, &markings) {
                Ok(ClaimAnswer::NotShown)
            } else {
                Ok(ClaimAnswer::Shown)
            }
        }
    }
}
