// Inner: which refusal a list of either kind gets, and a target after it: 2, 3 and 9.
#![tactic(auto)]

ghost use Rattle.std.specs.Prelude.{◌≡◌, ◌&&◌, ◌||◌, ◌≤◌, ltb, length};
ghost use Rattle.ground.specs.Limits.{count_limit, token_limit, list_limit};
ghost use Rattle.ground.specs.Lists.{bit, found};
ghost use Rattle.refusals.specs.Given.{token_bad};
ghost use Rattle.list_refusals.specs.Given.{whole, lowest_any, target_fault, bad_entry, first_bad, size_fault, list_fault};
ghost use Rattle.list_refusals.specs.Fine.{fine_marking, FineList};

use ground::{LIST_LIMIT, TOKEN_LIMIT};
use lists::{Kind, Markings};
use refusals::Refusal;

// Whether the list is made of whole markings.
fn is_whole(places: usize, list: &[u16]) -> bool
    ensures { result ≡ whole places list.now }
{
    0 < places && list.len() % places == 0
}

// Whether the list's length and that of what is lent after it agree with the counts.
pub fn is_fitting(places: usize, list: &[u16], fits: bool) -> bool
    ensures { result ≡ (whole places list.now && fits) }
{
    is_whole(places, list) && fits
}

// One place has more tokens than may be given.
fn is_any(tokens: u16) -> bool
    ensures { result ≡ ltb token_limit tokens }
{
    TOKEN_LIMIT < tokens
}

// The lowest such place, if there is one.
fn lowest_any(target: &[u16]) -> Option<usize>
    ensures { result ≡ found (length target.now) (lowest_any target.now) }
{
    for p in 0..target.len() {
        if is_any(target[p]) {
            return Some(p);
        }
    }
    None
}

// Refusal 3 for a target, which may be above capacity.
pub fn target_fault(target: &[u16]) -> Result<(), Refusal>
    ensures { result ≡ target_fault target.now }
{
    refusals::refuse_found(lowest_any(target), 3)
}

// The first entry of a closed list that may not be given, if there is one.
fn bad_entry(places: usize, caps: &[u16], list: &[u16]) -> Option<usize>
    requires le_places { 1 ≤ places }
    requires caps_len { length caps.now ≡ places }
    ensures { result ≡ found (length list.now) (bad_entry places caps.now list.now) }
{
    for k in 0..list.len() {
        if refusals::is_bad_token(caps[k % places], list[k]) {
            return Some(k);
        }
    }
    None
}

// 1 where a place has tokens that may not be given, else 0: a number, so that a pass over the places
// only adds.
fn bad_at(cap: u16, tokens: u16) -> u32
    ensures { result ≡ bit (token_bad cap tokens) }
{
    u32::from(refusals::is_bad_token(cap, tokens))
}

// Whether a marking may be given: one plain pass over the places, with no way out on the way.
fn is_fine(caps: &[u16], marking: &[u16]) -> bool
    requires { (length caps.now ≡ length marking.now) × (length marking.now ≤ count_limit) }
    ensures { result ≡ fine_marking caps.now marking.now }
{
    let mut bad: u32 = 0;
    for p in 0..marking.len() {
        bad += bad_at(caps[p], marking[p]);
    }
    bad == 0
}

// Whether the list is made of whole markings that may be given, as most lists are: judged marking by
// marking, with no division for each entry.
fn are_fine(places: usize, caps: &[u16], list: &[u16]) -> bool
    requires le_places { (1 ≤ places) × (places ≤ count_limit) }
    requires caps_len { length caps.now ≡ places }
    ensures { FineList places caps.now list.now result }
{
    if !is_whole(places, list) {
        return false;
    }
    let markings = Markings::new(places, list);
    for k in 0..markings.count {
        if !is_fine(caps, markings.marking(k)) {
            return false;
        }
    }
    true
}

// The first entry of a closed list that may not be given, looked for only where there may be one.
fn bad_listed(places: usize, caps: &[u16], list: &[u16]) -> Option<usize>
    requires le_places { (1 ≤ places) × (places ≤ count_limit) }
    requires caps_len { length caps.now ≡ places }
    ensures { result ≡ found (length list.now) (bad_entry places caps.now list.now) }
{
    if are_fine(places, caps, list) {
        return None;
    }
    bad_entry(places, caps, list)
}

// The same by the list's kind: a cover list has none.
fn first_bad(kind: Kind, places: usize, caps: &[u16], list: &[u16]) -> Option<usize>
    requires le_places { (1 ≤ places) × (places ≤ count_limit) }
    requires caps_len { length caps.now ≡ places }
    ensures { result ≡ found (length list.now) (first_bad kind places caps.now list.now) }
{
    match kind {
        Kind::Closed => bad_listed(places, caps, list),
        Kind::Cover => None,
    }
}

// Whether there are no markings, or too many.
fn is_outside(count: usize) -> bool
    ensures { result ≡ (ltb count 1 || ltb list_limit count) }
{
    count < 1 || LIST_LIMIT < count
}

// Refusal 9 for such a count.
fn size_fault(places: usize, list: &[u16]) -> Result<(), Refusal>
    requires { 1 ≤ places }
    ensures { result ≡ size_fault places list.now }
{
    refusals::refuse(is_outside(list.len() / places), 9, 0)
}

// Refusals 3 and 9 of the list; `next` is what comes between: 3 for what is lent after it, and 17.
pub fn list_fault(
    kind: Kind,
    places: usize,
    caps: &[u16],
    list: &[u16],
    next: Result<(), Refusal>,
) -> Result<(), Refusal>
    requires le_places { (1 ≤ places) × (places ≤ count_limit) }
    requires caps_len { length caps.now ≡ places }
    ensures { result ≡ list_fault kind places caps.now list.now next }
{
    refusals::refuse_found(first_bad(kind, places, caps, list), 3)?;
    next?;
    size_fault(places, list)
}
