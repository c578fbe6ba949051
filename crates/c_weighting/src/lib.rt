// Weightings, bounds and sets of places for C, as include/kaunorpi.h declares them: a list passes
// as its pointer and its number of entries, and an answer is a struct of document 01's numbers. Each
// export asks the entry of its name; a function of_.. puts an answer's numbers into the struct.
#![tactic(auto)]

ghost use Rattle.std.specs.Prelude.{◌≡◌, [], ◌∷◌};
ghost use Rattle.net.specs.Net.{net_of};
ghost use Rattle.weighting.specs.Place.{place_of, place_numbers};
ghost use Rattle.weighting.specs.Transition.{transition_of, transition_numbers};
ghost use Rattle.weighting_bound.specs.Bound.{cause_number, bound_of, bound_numbers};
ghost use Rattle.sets.specs.Answer.{siphon_of, trap_of, set_numbers};
ghost use Rattle.c_answer.specs.Hand.{handed};
ghost use Rattle.c_weighting.specs.Handed.{handed_bound};

use c_answer::{ANSWERED, Answer, REFUSED};
use ground::Weight;
use net::Lent;
use refusals::Refusal;
use sets::SetAnswer;
use weighting::{PlaceWeighting, TransitionWeighting};
use weighting_bound::{Bound, NoBoundCause};

// What the answer to a bound says.
#[repr(C)]
#[derive(Clone, Copy)]
pub struct BoundAnswer {
    pub kind: u8,
    pub number: u8,
    pub position: usize,
    pub bound: u64,
}

// An answer's numbers: which it is, and its position, 0 where it has none.
#[tactic(auto, unfolding(c_answer::specs::Hand::handed))]
fn answered(number: u8, position: usize) -> Answer
    ensures { result ≡ handed (0x81 ∷ number ∷ position ∷ []) }
{
    Answer {
        kind: ANSWERED,
        number,
        position,
    }
}

// A refusal's.
#[tactic(auto, unfolding(c_answer::specs::Hand::handed))]
fn refused(why: Refusal) -> Answer
    ensures { result ≡ handed (0x82 ∷ why.number ∷ why.at ∷ []) }
{
    Answer {
        kind: REFUSED,
        number: why.number,
        position: why.at,
    }
}

// The answer about a place weighting, in 01's numbers.
#[tactic(auto, unfolding(c_answer::specs::Hand::handed))]
fn of_place(answer: Result<PlaceWeighting, Refusal>) -> Answer
    ensures { result ≡ handed (place_numbers answer) }
{
    match answer {
        Ok(PlaceWeighting::Invariant) => answered(0, 0),
        Ok(PlaceWeighting::NotInvariant(t)) => answered(1, t),
        Err(why) => refused(why),
    }
}

// Whether a weighting of the places is invariant.
#[unsafe(no_mangle)]
pub extern "C" fn kaunorpi_place_weighting(
    places: usize,
    transitions: usize,
    pre: &[Weight],
    post: &[Weight],
    caps: &[u16],
    marks: &[u8],
    y: &[i16],
) -> Answer
    ensures { result ≡ handed (place_numbers (place_of (net_of places transitions pre.now post.now caps.now marks.now) y.now)) }
{
    let net = Lent {
        places,
        transitions,
        pre,
        post,
        caps,
        marks,
    };
    of_place(weighting::place_weighting(&net, y))
}

// The answer about a transition weighting, in 01's numbers.
#[tactic(auto, unfolding(c_answer::specs::Hand::handed))]
fn of_transition(answer: Result<TransitionWeighting, Refusal>) -> Answer
    ensures { result ≡ handed (transition_numbers answer) }
{
    match answer {
        Ok(TransitionWeighting::Invariant) => answered(0, 0),
        Ok(TransitionWeighting::NotInvariant(p)) => answered(1, p),
        Ok(TransitionWeighting::Proper) => answered(2, 0),
        Err(why) => refused(why),
    }
}

// Whether a weighting of the transitions is invariant, and proper.
#[unsafe(no_mangle)]
pub extern "C" fn kaunorpi_transition_weighting(
    places: usize,
    transitions: usize,
    pre: &[Weight],
    post: &[Weight],
    caps: &[u16],
    marks: &[u8],
    x: &[i16],
) -> Answer
    ensures { result ≡ handed (transition_numbers (transition_of (net_of places transitions pre.now post.now caps.now marks.now) x.now)) }
{
    let net = Lent {
        places,
        transitions,
        pre,
        post,
        caps,
        marks,
    };
    of_transition(weighting::transition_weighting(&net, x))
}

// The number of a cause, in the order they are tried.
fn cause_number(why: NoBoundCause) -> usize
    ensures { result ≡ cause_number why }
{
    match why {
        NoBoundCause::NotInvariant => 1,
        NoBoundCause::Negative => 2,
        NoBoundCause::NotPositive => 3,
    }
}

// The answer about a bound, in 01's numbers.
#[tactic(auto, unfolding(crate::specs::Handed::handed_bound))]
fn of_bound(answer: Result<Bound, Refusal>) -> BoundAnswer
    ensures { result ≡ handed_bound (bound_numbers answer) }
{
    match answer {
        Ok(Bound::Bounded(bound)) => BoundAnswer {
            kind: ANSWERED,
            number: 0,
            position: 0,
            bound,
        },
        Ok(Bound::NoBound(why)) => BoundAnswer {
            kind: ANSWERED,
            number: 1,
            position: cause_number(why),
            bound: 0,
        },
        Err(why) => BoundAnswer {
            kind: REFUSED,
            number: why.number,
            position: why.at,
            bound: 0,
        },
    }
}

// What an invariant weighting bounds the tokens of a place by.
#[unsafe(no_mangle)]
pub extern "C" fn kaunorpi_place_bound(
    places: usize,
    transitions: usize,
    pre: &[Weight],
    post: &[Weight],
    caps: &[u16],
    marks: &[u8],
    initial: &[u16],
    y: &[i16],
    place: usize,
) -> BoundAnswer
    ensures { result ≡ handed_bound (bound_numbers (bound_of (net_of places transitions pre.now post.now caps.now marks.now) initial.now y.now place)) }
{
    let net = Lent {
        places,
        transitions,
        pre,
        post,
        caps,
        marks,
    };
    of_bound(weighting_bound::place_bound(&net, initial, y, place))
}

// The answer about a set, in 01's numbers.
#[tactic(auto, unfolding(c_answer::specs::Hand::handed))]
fn of_set(answer: Result<SetAnswer, Refusal>) -> Answer
    ensures { result ≡ handed (set_numbers answer) }
{
    match answer {
        Ok(SetAnswer::Yes) => answered(0, 0),
        Ok(SetAnswer::No(t)) => answered(1, t),
        Err(why) => refused(why),
    }
}

// Whether a set of places is a siphon.
#[unsafe(no_mangle)]
pub extern "C" fn kaunorpi_siphon_set(
    places: usize,
    transitions: usize,
    pre: &[Weight],
    post: &[Weight],
    caps: &[u16],
    marks: &[u8],
    set: &[u8],
) -> Answer
    ensures { result ≡ handed (set_numbers (siphon_of (net_of places transitions pre.now post.now caps.now marks.now) set.now)) }
{
    let net = Lent {
        places,
        transitions,
        pre,
        post,
        caps,
        marks,
    };
    of_set(sets::siphon_set(&net, set))
}

// Whether a set of places is a trap.
#[unsafe(no_mangle)]
pub extern "C" fn kaunorpi_trap_set(
    places: usize,
    transitions: usize,
    pre: &[Weight],
    post: &[Weight],
    caps: &[u16],
    marks: &[u8],
    set: &[u8],
) -> Answer
    ensures { result ≡ handed (set_numbers (trap_of (net_of places transitions pre.now post.now caps.now marks.now) set.now)) }
{
    let net = Lent {
        places,
        transitions,
        pre,
        post,
        caps,
        marks,
    };
    of_set(sets::trap_set(&net, set))
}
