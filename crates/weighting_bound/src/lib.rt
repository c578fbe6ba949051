// The bound that an invariant place weighting gives to a place.
#![tactic(auto)]

ghost use Rattle.std.specs.Prelude.{◌≡◌, ◌<◌, length};
ghost use Rattle.net.specs.Lent.{lent};
ghost use Rattle.net.specs.Net.{Sized};
ghost use Rattle.weighting_bound.specs.Bound.{bound_fault, found_bound, bound_of, bound_numbers};

use ground::up_entry;
use net::{Net, SizedNet};
use refusals::{Refusal, refuse};

// Why a weighting gives a place no bound, in the order they are tried.
#[derive(Clone, Copy)]
pub enum NoBoundCause {
    NotInvariant,
    Negative,
    NotPositive,
}

// The answer for a bound: the bound; or none, with its cause.
#[derive(Clone, Copy)]
pub enum Bound {
    Bounded(u64),
    NoBound(NoBoundCause),
}

// Refusals 1, 2, 18, 3, 17, 8 and 13 for a bound.
fn bound_fault(net: &Net, initial: &[u16], y: &[i16], place: usize) -> Result<(), Refusal>
    ensures { result ≡ bound_fault (lent net.now) initial.now y.now place }
{
    refusals::marked_fault(net, initial, y.len() == net.places)?;
    weighting_sums::zero_fault(y)?;
    refuse(net.places <= place, 13, 0)
}

// The bound, or the first cause of the three for which there is none.
#[tactic(auto, unfolding(crate::specs::Bound::found_bound))]
fn find_bound(sized: &SizedNet, initial: &[u16], y: &[i16], place: usize) -> Bound
    requires initial_len { length initial.now ≡ sized.now.net.places }
    requires y_len { length y.now ≡ sized.now.net.places }
    requires place_lt_places { place < sized.now.net.places }
    ensures { result ≡ found_bound (lent sized.now.net) initial.now y.now place }
{
    if weighting_sums::lowest_transition(sized, y).is_some() {
        return Bound::NoBound(NoBoundCause::NotInvariant);
    }
    if weighting_sums::lowest_entry(y, true).is_some() {
        return Bound::NoBound(NoBoundCause::Negative);
    }
    let own = up_entry(y[place]);
    if own == 0 {
        return Bound::NoBound(NoBoundCause::NotPositive);
    }
    Bound::Bounded(weighting_sums::weigh(y, initial) / u64::from(own))
}

// The bound that a place weighting gives to a place, from the net's initial marking: the whole
// part of (sum of weighting times marking) / the place's own entry.
pub fn place_bound(net: &Net, initial: &[u16], y: &[i16], place: usize) -> Result<Bound, Refusal>
    ensures { bound_numbers result ≡ bound_numbers (bound_of (lent net.now) initial.now y.now place) }
{
    bound_fault(net, initial, y, place)?;
    Ok(find_bound(&SizedNet { net: *net }, initial, y, place))
}
