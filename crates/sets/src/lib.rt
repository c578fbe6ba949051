// Siphons and traps of a net: whether a set of places, a byte for each with 0 for out, is one.
#![tactic(auto)]

ghost use Rattle.std.specs.Prelude.{◌≡◌, ◌<◌, ltb, length, get_or};
ghost use Rattle.ground.specs.Lists.{found};
ghost use Rattle.net.specs.Lent.{lent};
ghost use Rattle.net.specs.Net.{Sized};
ghost use Rattle.sets.specs.Answer.{meets, touches, escapes, lowest_escape, turned, lowest_member, set_fault, judged_set, siphon_of, trap_of, set_numbers};

use ground::Weight;
use net::{Lent, Net, SizedNet};
use refusals::{Refusal, refuse};

// The answer for a set: it is one; or none, with the lowest failing transition.
#[derive(Clone, Copy)]
pub enum SetAnswer {
    Yes,
    No(usize),
}

// Whether a place is in the set and has an arc.
fn is_meeting(weight: Weight, member: u8) -> bool
    ensures { result ≡ meets weight member }
{
    0 < member && 0 < weight
}

// Whether a row of arcs has one at a place in the set.
fn is_touching(row: &[Weight], set: &[u8]) -> bool
    requires { length row.now ≡ length set.now }
    ensures { result ≡ touches set.now (λ p. get_or row.now p 0) }
{
    for p in 0..set.len() {
        if is_meeting(row[p], set[p]) {
            return true;
        }
    }
    false
}

// Whether a transition puts into the set and does not take from it.
fn is_escape(sized: &SizedNet, set: &[u8], t: usize) -> bool
    requires set_len { length set.now ≡ sized.now.net.places }
    requires t_lt_transitions { t < sized.now.net.transitions }
    ensures { result ≡ escapes (lent sized.now.net) set.now t }
{
    is_touching(sized.puts(t), set) && !is_touching(sized.takes(t), set)
}

// The lowest transition that puts into the set and does not take from it, if there is one.
#[tactic(auto, using(ground::proofs::Scan::scans))]
fn lowest_escape(sized: &SizedNet, set: &[u8]) -> Option<usize>
    requires { length set.now ≡ sized.now.net.places }
    ensures { result ≡ found sized.now.net.transitions (lowest_escape (lent sized.now.net) set.now) }
{
    for t in 0..sized.net.transitions {
        if is_escape(sized, set, t) {
            return Some(t);
        }
    }
    None
}

// Whether a place is in the set.
fn is_member(member: u8) -> bool
    ensures { result ≡ ltb 0 member }
{
    0 < member
}

// The lowest place in the set, if it has one.
fn lowest_member(set: &[u8]) -> Option<usize>
    ensures { result ≡ found (length set.now) (lowest_member set.now) }
{
    for p in 0..set.len() {
        if is_member(set[p]) {
            return Some(p);
        }
    }
    None
}

// Refusals 1, 2, 18, 17 and 8 for a set.
#[tactic(auto, unfolding(crate::specs::Answer::set_fault))]
fn set_fault(net: &Net, set: &[u8]) -> Result<(), Refusal>
    ensures { result ≡ set_fault (lent net.now) set.now }
{
    refusals::net_fault(net, set.len() == net.places)?;
    refuse(lowest_member(set).is_none(), 8, 0)
}

// Whether no transition puts into the set without taking from it, else the lowest that does.
fn judge_set(sized: &SizedNet, set: &[u8]) -> SetAnswer
    requires { length set.now ≡ sized.now.net.places }
    ensures { result ≡ judged_set (lent sized.now.net) set.now }
{
    match lowest_escape(sized, set) {
        Some(t) => SetAnswer::No(t),
        None => SetAnswer::Yes,
    }
}

// Whether a set is a siphon: every transition that puts into it also takes from it.
pub fn siphon_set(net: &Net, set: &[u8]) -> Result<SetAnswer, Refusal>
    ensures { set_numbers result ≡ set_numbers (siphon_of (lent net.now) set.now) }
{
    set_fault(net, set)?;
    let sized = SizedNet { net: *net };
    Ok(judge_set(&sized, set))
}

// The net with all arcs turned round: its siphons are the net's traps.
fn turned<'a>(net: &'a Net<'_>) -> Net<'a>
    ensures { lent result ≡ turned (lent net.now) }
{
    Lent {
        pre: net.post,
        post: net.pre,
        ..*net
    }
}

// Whether a set is a trap: every transition that takes from it also puts into it.
pub fn trap_set(net: &Net, set: &[u8]) -> Result<SetAnswer, Refusal>
    ensures { set_numbers result ≡ set_numbers (trap_of (lent net.now) set.now) }
{
    set_fault(net, set)?;
    let sized = SizedNet { net: turned(net) };
    Ok(judge_set(&sized, set))
}
