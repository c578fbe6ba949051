// Inner: lists of markings as lent, flat, P numbers a marking: what closed lists and cover lists
// share. Where the two differ, a function is told the kind.
#![tactic(auto)]

ghost use Rattle.std.specs.Prelude.{◌≡◌, ◌≤◌, ◌<◌, length};
ghost use Rattle.ground.specs.Limits.{count_limit};
ghost use Rattle.refusals.specs.Given.{unlike};
ghost use Rattle.lists.specs.Whole.{Whole, Listing, marking_of};
ghost use Rattle.lists.specs.Match.{alike, beyond, covering, matches, held_in};

use ground::{COUNT_LIMIT, TOKEN_LIMIT};

// A closed list holds markings; a cover list covers them, and may hold 65,535 for any number.
#[derive(Clone, Copy)]
pub enum Kind {
    Closed,
    Cover,
}

// Why a list is not accepted: the initial marking is missing, or the result of a transition at a
// listed marking, each by its number.
#[derive(Clone, Copy)]
pub enum Failure {
    InitialMissing,
    ResultMissing(usize, usize),
}

// The answer to a list: accepted, or its failure.
#[derive(Clone, Copy)]
pub enum ListAnswer {
    Accepted,
    Failed(Failure),
}

// The answer to a claim that an accepted list may show, that a target is never reached or covered or
// that the line never stalls: shown, or not shown; else the list's failure.
#[derive(Clone, Copy)]
pub enum ClaimAnswer {
    Shown,
    NotShown,
    Failed(Failure),
}

// A list of markings as lent, flat: so many markings of so many places.
#[derive(Clone, Copy)]
pub struct Markings<'a> {
    pub places: usize,
    pub count: usize,
    pub list: &'a [u16],
}

impl<'a> Markings<'a> {
    // The markings of a list, as many as are whole.
    pub fn new(places: usize, list: &'a [u16]) -> Markings<'a>
        requires { 1 ≤ places }
        ensures { Listing places list.now result }
    {
        Markings {
            places,
            count: list.len() / places,
            list,
        }
    }

    // Marking number k.
    pub fn marking(&self, k: usize) -> &'a [u16]
        requires whole { Whole self.now }
        requires k_lt_count { k < self.now.count }
        ensures { result.now ≡ marking_of self.now k }
    {
        let a = k * self.places;
        let e = a + self.places;
        &self.list[a..e]
    }
}

// Room for one marking of as many places as there may be.
pub fn no_tokens() -> [u32; COUNT_LIMIT]
    ensures { length result ≡ count_limit }
{
    [0; COUNT_LIMIT]
}

// One place of two markings, as numbers: what is listed is never compared with a number cut short.
fn is_unlike(listed: u16, tokens: u32) -> bool
    ensures { result ≡ unlike listed tokens }
{
    u32::from(listed) != tokens
}

// Whether two markings are the same, compared from the last place down: neighbours in a list differ
// mostly in their last places.
fn same_marking(listed: &[u16], marking: &[u32]) -> bool
    requires { length listed.now ≡ length marking.now }
    ensures { result ≡ alike listed.now marking.now }
{
    for p in (0..marking.len()).rev() {
        if is_unlike(listed[p], marking[p]) {
            return false;
        }
    }
    true
}

// One place: the entry is a number, and there are more tokens.
fn is_beyond(entry: u16, tokens: u32) -> bool
    ensures { result ≡ beyond entry tokens }
{
    entry <= TOKEN_LIMIT && u32::from(entry) < tokens
}

// Whether one listed marking covers a marking, at every place.
fn is_covering(listed: &[u16], marking: &[u32]) -> bool
    requires { length listed.now ≡ length marking.now }
    ensures { result ≡ covering listed.now marking.now }
{
    for p in 0..marking.len() {
        if is_beyond(listed[p], marking[p]) {
            return false;
        }
    }
    true
}

// Whether a listed marking is the marking or covers it, by the list's kind: one branch a marking,
// none a place.
fn is_match(kind: Kind, listed: &[u16], marking: &[u32]) -> bool
    requires { length listed.now ≡ length marking.now }
    ensures { result ≡ matches kind listed.now marking.now }
{
    match kind {
        Kind::Closed => same_marking(listed, marking),
        Kind::Cover => is_covering(listed, marking),
    }
}

// Whether the list holds a marking, or covers it.
pub fn is_held(kind: Kind, list: &Markings, marking: &[u32]) -> bool
    requires whole { Whole list.now }
    requires marking_len { length marking.now ≡ list.now.places }
    ensures { result ≡ held_in kind list.now marking.now }
{
    for k in 0..list.count {
        if is_match(kind, list.marking(k), marking) {
            return true;
        }
    }
    false
}

// The same for a given marking; the room is for the marking in 32 bits.
fn is_given_held(kind: Kind, list: &Markings, given: &[u16], room: &mut [u32]) -> bool
    requires whole { Whole list.now }
    requires given_len { length given.now ≡ list.now.places }
    requires room_len { length room.old ≡ list.now.places }
    ensures { result ≡ held_in kind list.now given.now }
{
    net::load(given, room);
    is_held(kind, list, room)
}

// The same, with room of its own.
pub fn holds(kind: Kind, list: &Markings, given: &[u16]) -> bool
    requires places_le_count_limit { list.now.places ≤ count_limit }
    requires whole { Whole list.now }
    requires given_len { length given.now ≡ list.now.places }
    ensures { result ≡ held_in kind list.now given.now }
{
    let mut room = no_tokens();
    is_given_held(kind, list, given, &mut room[..list.places])
}
