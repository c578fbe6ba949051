// Place and transition weightings of a net: whether one is invariant.
#![tactic(auto)]

ghost use Rattle.std.specs.Prelude.{◌≡◌, ◌<◌};
ghost use Rattle.weighting.specs.Tests.{weighting_fault};
ghost use Rattle.weighting.specs.Place.{place_of, place_numbers};
ghost use Rattle.weighting.specs.Transition.{transition_of, transition_numbers};
ghost use Rattle.net.specs.Lent.{lent};

use net::{Net, SizedNet};
use refusals::Refusal;

// The answer for a place weighting: invariant; or not, with the lowest failing transition.
#[derive(Clone, Copy)]
pub enum PlaceWeighting {
    Invariant,
    NotInvariant(usize),
}

// The answer for a transition weighting: not invariant, with the lowest failing place; invariant,
// with a negative entry; or proper.
#[derive(Clone, Copy)]
pub enum TransitionWeighting {
    NotInvariant(usize),
    Invariant,
    Proper,
}

// Refusals 1, 2, 18, 17 and 8 for a weighting of so many entries.
fn weighting_fault(net: &Net, entries: usize, y: &[i16]) -> Result<(), Refusal>
    ensures { result ≡ weighting_fault (lent net.now) entries y.now }
{
    refusals::net_fault(net, y.len() == entries)?;
    weighting_sums::zero_fault(y)
}

// Whether a place weighting is invariant: for each transition the sum over the places of entry
// times change is 0.
pub fn place_weighting(net: &Net, y: &[i16]) -> Result<PlaceWeighting, Refusal>
    ensures { place_numbers result ≡ place_numbers (place_of (lent net.now) y.now) }
{
    weighting_fault(net, net.places, y)?;
    match weighting_sums::lowest_transition(&SizedNet { net: *net }, y) {
        Some(t) => Ok(PlaceWeighting::NotInvariant(t)),
        None => Ok(PlaceWeighting::Invariant),
    }
}

// Whether a transition weighting is invariant: for each place the sum over the transitions of
// change times entry is 0; and whether it is proper.
pub fn transition_weighting(net: &Net, x: &[i16]) -> Result<TransitionWeighting, Refusal>
    ensures { transition_numbers result ≡ transition_numbers (transition_of (lent net.now) x.now) }
{
    weighting_fault(net, net.transitions, x)?;
    if let Some(p) = weighting_sums::lowest_place(&SizedNet { net: *net }, x) {
        return Ok(TransitionWeighting::NotInvariant(p));
    }
    match weighting_sums::lowest_entry(x, true) {
        Some(_) => Ok(TransitionWeighting::Invariant),
        None => Ok(TransitionWeighting::Proper),
    }
}
