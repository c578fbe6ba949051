// Inner: nodes that hang on nothing: the lowest place, and the lowest transition, without an arc.
#![tactic(auto)]

ghost use Rattle.std.specs.Prelude.{◌≡◌, true, false, ◌+◌, ◌*◌, ◌<◌, ◌≤◌, ltb, length};
ghost use Rattle.ground.specs.Lists.{found};
ghost use Rattle.net.specs.Lent.{lent};
ghost use Rattle.net.specs.Net.{Sized};
ghost use Rattle.wiring.specs.Wired.{loose_place, loose_transition, lowest_loose_place, lowest_loose_transition};

use ground::Weight;
use net::{Net, SizedNet};

// Whether there is an arc, in one direction or both.
fn is_arc(takes: Weight, puts: Weight) -> bool
    ensures { result ≡ ltb 0 (takes + puts) }
{
    if takes == 0 {
        return 0 < puts;
    }
    true
}

// Whether no transition has an arc with this place.
fn is_loose_place(sized: &SizedNet, p: usize) -> bool
    requires { p < sized.now.net.places }
    ensures { result ≡ loose_place (lent sized.now.net) p }
{
    for t in 0..sized.net.transitions {
        if is_arc(sized.pre_at(p, t), sized.post_at(p, t)) {
            return false;
        }
    }
    true
}

// Whether no place has an arc with this transition.
fn is_loose_transition(sized: &SizedNet, t: usize) -> bool
    requires { t < sized.now.net.transitions }
    ensures { result ≡ loose_transition (lent sized.now.net) t }
{
    for p in 0..sized.net.places {
        if is_arc(sized.pre_at(p, t), sized.post_at(p, t)) {
            return false;
        }
    }
    true
}

// The lowest place that hangs loose, if one does.
pub fn loose_place(sized: &SizedNet) -> Option<usize>
    ensures { result ≡ found sized.now.net.places (lowest_loose_place (lent sized.now.net)) }
{
    for p in 0..sized.net.places {
        if is_loose_place(sized, p) {
            return Some(p);
        }
    }
    None
}

// The lowest transition that hangs loose, if one does.
pub fn loose_transition(sized: &SizedNet) -> Option<usize>
    ensures { result ≡ found sized.now.net.transitions (lowest_loose_transition (lent sized.now.net)) }
{
    for t in 0..sized.net.transitions {
        if is_loose_transition(sized, t) {
            return Some(t);
        }
    }
    None
}
