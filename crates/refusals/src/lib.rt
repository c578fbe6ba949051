// Inner: the refusals that every entry shares: what is wrong with a net, its marking or a word.
#![tactic(auto)]

ghost use Rattle.std.specs.Prelude.{◌≡◌, not, ◌||◌, ◌&&◌, eqb, ◌+◌, ◌≤◌, leb, ltb, length, MatchOption, ⊤};
ghost use Rattle.ground.specs.Limits.{count_limit};
ghost use Rattle.ground.specs.Lists.{found};
ghost use Rattle.net.specs.Lent.{lent};
ghost use Rattle.net.specs.Net.{Sized};
ghost use Rattle.refusals.specs.Given.{refuse, refuse_found, or_else, outside, misfit, sized_net, token_bad, bad_token, weights_fault, counts_fault, behind_places, loose_fault, net_fault, marking_fault, start_fault, marked_fault, bad_letter, word_fault};

use ground::{COUNT_LIMIT, TOKEN_LIMIT, WORD_LIMIT};
use net::{Net, SizedNet};

// Why what was lent cannot be used: a refusal's number, as the documents, the case files and the
// interface for C have it, and its position.
#[derive(Clone, Copy)]
pub struct Refusal {
    pub number: u8,
    pub at: usize,
}

// A refusal with its position, where something is wrong.
pub fn refuse(wrong: bool, number: u8, at: usize) -> Result<(), Refusal>
    ensures { result ≡ refuse wrong number at }
{
    if wrong {
        return Err(Refusal { number, at });
    }
    Ok(())
}

// A refusal whose position is what was found, if something was.
pub fn refuse_found(found: Option<usize>, number: u8) -> Result<(), Refusal>
    ensures { result ≡ refuse_found found number }
{
    match found {
        Some(at) => Err(Refusal { number, at }),
        None => Ok(()),
    }
}

// Refusal 1 for one count.
pub fn is_outside(count: usize) -> bool
    ensures { result ≡ outside count }
{
    count < 1 || COUNT_LIMIT < count
}

// Refusal 1 for the counts of a net.
fn are_outside(net: &Net) -> bool
    ensures { result ≡ (outside net.now.places || outside net.now.transitions) }
{
    is_outside(net.places) || is_outside(net.transitions)
}

// Whether a list of the net has another length than the counts say.
fn is_misfit(net: &Net) -> bool
    requires { (net.now.places ≤ count_limit) × (net.now.transitions ≤ count_limit) }
    ensures { result ≡ misfit (lent net.now) }
{
    let cells = net.transitions * net.places;
    net.pre.len() != cells
        || net.post.len() != cells
        || net.caps.len() != net.places
        || net.marks.len() != net.places
}

// Refusal 2: such a list, or what else an entry is lent.
fn are_misfits(net: &Net, fits: bool) -> bool
    requires { (net.now.places ≤ count_limit) × (net.now.transitions ≤ count_limit) }
    ensures { result ≡ (misfit (lent net.now) || not fits) }
{
    is_misfit(net) || !fits
}

// One place of a given marking has more tokens than may be given, or than its capacity.
pub fn is_bad_token(cap: u16, tokens: u16) -> bool
    ensures { result ≡ token_bad cap tokens }
{
    TOKEN_LIMIT < tokens || cap < tokens
}

// The lowest place with tokens that may not be given, if there is one.
fn bad_token(caps: &[u16], marking: &[u16]) -> Option<usize>
    requires { length caps.now ≡ length marking.now }
    ensures { result ≡ found (length marking.now) (bad_token caps.now marking.now) }
{
    for p in 0..marking.len() {
        if is_bad_token(caps[p], marking[p]) {
            return Some(p);
        }
    }
    None
}

// Whether the counts are in range and the net's lists have the lengths that they say.
pub fn is_sized(net: &Net) -> bool
    ensures { result ≡ sized_net (lent net.now) }
{
    !are_outside(net) && !is_misfit(net)
}

// Refusal 18: the lowest transition with a weight over what is allowed.
fn weights_fault(sized: &SizedNet) -> Result<(), Refusal>
    ensures { result ≡ weights_fault (lent sized.now.net) }
{
    refuse_found(weights::heavy_transition(sized), 18)
}

// Refusals 1, 2 and 18: counts, lengths and weights. `fits` tells whether the lengths of all else that
// an entry is lent agree with the counts, which is refusal 2 too.
pub fn counts_fault(net: &Net, fits: bool) -> Result<(), Refusal>
    ensures { result ≡ counts_fault (lent net.now) fits }
{
    refuse(are_outside(net), 1, 0)?;
    refuse(are_misfits(net, fits), 2, 0)?;
    weights_fault(&SizedNet { net: *net })
}

// The position of a transition that was found: behind those of all places.
fn behind_places(found: Option<usize>) -> Option<usize>
    requires { MatchOption found ⊤ (λ t. t ≤ count_limit) }
    ensures { result ≡ behind_places found }
{
    match found {
        Some(t) => Some(COUNT_LIMIT + t),
        None => None,
    }
}

// Refusal 17: the lowest place without an arc, else 64 and the lowest transition without one.
pub fn loose_fault(sized: &SizedNet) -> Result<(), Refusal>
    ensures { result ≡ loose_fault (lent sized.now.net) }
{
    refuse_found(wiring::loose_place(sized), 17)?;
    refuse_found(behind_places(wiring::loose_transition(sized)), 17)
}

// What is wrong with a net, for questions without a marking.
pub fn net_fault(net: &Net, fits: bool) -> Result<(), Refusal>
    ensures { result ≡ net_fault (lent net.now) fits }
{
    counts_fault(net, fits)?;
    loose_fault(&SizedNet { net: *net })
}

// Refusal 3 for a marking.
pub fn marking_fault(caps: &[u16], marking: &[u16]) -> Result<(), Refusal>
    requires { length caps.now ≡ length marking.now }
    ensures { result ≡ marking_fault caps.now marking.now }
{
    refuse_found(bad_token(caps, marking), 3)
}

// Whether the marking, and all else that an entry is lent, agrees with the counts.
fn is_fitting(net: &Net, initial: &[u16], fits: bool) -> bool
    ensures { result ≡ (eqb (length initial.now) net.now.places && fits) }
{
    initial.len() == net.places && fits
}

// Refusals 1, 2, 18 and 3 for a net and its initial marking, for questions whose list or target has a 3
// of its own.
pub fn start_fault(net: &Net, initial: &[u16], fits: bool) -> Result<(), Refusal>
    ensures { result ≡ start_fault (lent net.now) initial.now fits }
{
    counts_fault(net, is_fitting(net, initial, fits))?;
    marking_fault(net.caps, initial)
}

// What is wrong with a net and its marking, for questions with one marking.
pub fn marked_fault(net: &Net, initial: &[u16], fits: bool) -> Result<(), Refusal>
    ensures { result ≡ marked_fault (lent net.now) initial.now fits }
{
    start_fault(net, initial, fits)?;
    loose_fault(&SizedNet { net: *net })
}

// Whether a letter names no transition.
fn is_bad_letter(transitions: usize, t: u8) -> bool
    ensures { result ≡ leb transitions t }
{
    transitions <= usize::from(t)
}

// The first letter that names no transition, if there is one.
fn bad_letter(transitions: usize, word: &[u8]) -> Option<usize>
    ensures { result ≡ found (length word.now) (bad_letter transitions word.now) }
{
    for k in 0..word.len() {
        if is_bad_letter(transitions, word[k]) {
            return Some(k);
        }
    }
    None
}

// Refusals 4 and 5: all letters are checked before any fires.
pub fn word_fault(transitions: usize, word: &[u8]) -> Result<(), Refusal>
    ensures { result ≡ word_fault transitions word.now }
{
    refuse(WORD_LIMIT < word.len(), 4, 0)?;
    refuse_found(bad_letter(transitions, word), 5)
}
