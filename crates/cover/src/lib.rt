// Cover lists: a list of markings, with 65,535 for any number, that covers the initial marking and
// every result of its own markings covers every reachable one, so what it does not cover never is.
#![tactic(auto)]

ghost use Rattle.std.specs.Prelude.{◌≡◌, true, Ok};
ghost use Rattle.lists.specs.Answers.{numbers, claim_numbers};
ghost use Rattle.lists.specs.declared.Kind.TheVariants.{Cover};
ghost use Rattle.list_check.specs.Given.{list_of, target_of};
ghost use Rattle.net.specs.Lent.{lent};

use lists::{ClaimAnswer, Kind, ListAnswer};
use net::Net;
use refusals::Refusal;

// Whether a list is a cover list: one of its markings covers the initial marking, and each enabled
// result is covered by a listed marking.
pub fn cover_list(net: &Net, initial: &[u16], list: &[u16]) -> Result<ListAnswer, Refusal>
    ensures { numbers result ≡ numbers (list_of Cover (lent net.now) initial.now list.now true (Ok tt)) }
{
    list_check::check_list(Kind::Cover, net, initial, list, true, Ok(()))
}

// Whether a cover list shows that a target is never covered by a reachable marking.
pub fn cover_target(
    net: &Net,
    initial: &[u16],
    list: &[u16],
    target: &[u16],
) -> Result<ClaimAnswer, Refusal>
    ensures { claim_numbers result ≡ claim_numbers (target_of Cover (lent net.now) initial.now list.now target.now) }
{
    list_check::check_target(Kind::Cover, net, initial, list, target)
}
