// Inner: a transition judged and fired at a listed marking by its arcs. A place without an arc neither
// stops a transition, at a marking within the capacities, nor changes: `skips` tells for each entry of
// Pre how many such places a pass over the places, from the last one down, may leave out there.
#![tactic(auto)]

ghost use Rattle.std.specs.Prelude.{◌≡◌, true, ◌||◌, ◌+◌, ◌-◌, ◌≤◌, ◌<◌, length};
ghost use Rattle.ground.specs.Limits.{count_limit};
ghost use Rattle.net.specs.Lent.{lent};
ghost use Rattle.net.specs.Net.{Sized};
ghost use Rattle.net.specs.Letter.{short_at, over_at, arcs_at, passes, fired_at};
ghost use Rattle.list_arcs.specs.Arc.{arc_limit, arc_at, skip_of, Skips, Next, Within};

use ground::{NO_CAPACITY, Weight};
use net::{Net, SizedNet};

// As many entries as Pre may have.
pub const ARC_LIMIT: usize = 4096;

// Room for the skips of the largest net.
pub fn no_skips() -> [u8; ARC_LIMIT]
    ensures { length result ≡ arc_limit }
{
    [0; ARC_LIMIT]
}

// Whether a transition takes from a place, or puts there.
fn has_arc(takes: Weight, puts: Weight) -> bool
    ensures { result ≡ arc_at takes puts }
{
    0 < takes || 0 < puts
}

// How many entries, from entry k down to the transition's place 1, have no arc, up to the first that
// has one. Place 0 is always looked at, so that a pass ends there.
fn skip_at(net: &Net, k: usize) -> u8
    requires le_places { (1 ≤ net.now.places) × (net.now.places ≤ count_limit) }
    requires k_in_bounds { (k < length net.now.pre.now) × (length net.now.post.now ≡ length net.now.pre.now) }
    ensures { result ≡ skip_of net.now.places net.now.pre.now net.now.post.now k }
{
    let most = k % net.places;
    for n in 0..most {
        let j = k - n;
        if has_arc(net.pre[j], net.post[j]) {
            return n as u8;
        }
    }
    most as u8
}

// The skips of a net, once for all pairs.
pub fn make_skips(net: &Net, skips: &mut [u8])
    requires le_places { (1 ≤ net.now.places) × (net.now.places ≤ count_limit) }
    requires pre_in_bounds { (length net.now.pre.now ≤ length skips.old) × (length net.now.post.now ≡ length net.now.pre.now) }
    ensures { Skips net.now.places net.now.pre.now net.now.post.now skips.new }
{
    for k in 0..net.pre.len() {
        skips[k] = skip_at(net, k);
    }
}

// The next place below p that a pass looks at: a transition has no arc with those between.
fn next_place(sized: &SizedNet, skips: &[u8], t: usize, p: usize) -> usize
    requires skips { Skips sized.now.net.places sized.now.net.pre.now sized.now.net.post.now skips.now }
    requires t_lt_transitions { t < sized.now.net.transitions }
    requires p_inside { (0 < p) × (p ≤ sized.now.net.places) }
    ensures { Next sized.now.net.places sized.now.net.pre.now sized.now.net.post.now t p result }
{
    let last = p - 1;
    last - usize::from(skips[t * sized.net.places + last])
}

// One place stops a transition at a marking within the capacities: it has fewer tokens than are taken,
// or it has a capacity and would rise above it. Where there is room for all that is put, it does not
// rise above it whatever its mark, so that few places are asked for theirs.
fn is_stopped(takes: Weight, puts: Weight, cap: u16, mark: u8, tokens: u16) -> bool
    requires { tokens ≤ cap }
    ensures { result ≡ (short_at takes tokens || over_at takes puts cap mark tokens) }
{
    if tokens < takes {
        return true;
    }
    let most = u32::from(tokens) + u32::from(puts);
    if most <= u32::from(cap) {
        return false;
    }
    if cap < NO_CAPACITY {
        let rise = net::rise(mark, takes, puts);
        return u32::from(cap) < u32::from(tokens) + u32::from(rise);
    }
    false
}

// Whether a transition may fire at a listed marking within the capacities.
pub fn may_fire_listed(sized: &SizedNet, skips: &[u8], t: usize, listed: &[u16]) -> bool
    requires skips { Skips sized.now.net.places sized.now.net.pre.now sized.now.net.post.now skips.now }
    requires listed_len { (length listed.now ≡ sized.now.net.places) × (t < sized.now.net.transitions) }
    requires within { Within sized.now.net.caps.now listed.now }
    ensures { result ≡ passes (arcs_at (lent sized.now.net) t) listed.now }
{
    let takes = sized.takes(t);
    let puts = sized.puts(t);
    let mut p = sized.net.places;
    while 0 < p {
        p = next_place(sized, skips, t, p);
        if is_stopped(
            takes[p],
            puts[p],
            sized.net.caps[p],
            sized.net.marks[p],
            listed[p],
        ) {
            return false;
        }
    }
    true
}

// One place after the transition.
fn moved(takes: Weight, puts: Weight, tokens: u16) -> u32
    requires { takes ≤ tokens }
    ensures { result ≡ tokens + puts - takes }
{
    u32::from(tokens) + u32::from(puts) - u32::from(takes)
}

// Changes the places that a transition has arcs with, in a room that has the listed marking.
fn fire_arcs(sized: &SizedNet, skips: &[u8], t: usize, listed: &[u16], room: &mut [u32])
    requires skips { Skips sized.now.net.places sized.now.net.pre.now sized.now.net.post.now skips.now }
    requires listed_len { (length listed.now ≡ sized.now.net.places) × (t < sized.now.net.transitions) }
    requires listed_value { passes (arcs_at (lent sized.now.net) t) listed.now ≡ true }
    requires room_value { room.old ≡ listed.now }
    ensures { room.new ≡ fired_at (lent sized.now.net) t listed.now }
{
    let takes = sized.takes(t);
    let puts = sized.puts(t);
    let mut p = sized.net.places;
    while 0 < p {
        p = next_place(sized, skips, t, p);
        room[p] = moved(takes[p], puts[p], listed[p]);
    }
}

// The result of a transition that may fire at a listed marking, into the room.
pub fn fire_listed(sized: &SizedNet, skips: &[u8], t: usize, listed: &[u16], room: &mut [u32])
    requires skips { Skips sized.now.net.places sized.now.net.pre.now sized.now.net.post.now skips.now }
    requires listed_len { (length listed.now ≡ sized.now.net.places) × (t < sized.now.net.transitions) }
    requires listed_value { passes (arcs_at (lent sized.now.net) t) listed.now ≡ true }
    requires room_len { length room.old ≡ sized.now.net.places }
    ensures { room.new ≡ fired_at (lent sized.now.net) t listed.now }
{
    net::load(listed, room);
    fire_arcs(sized, skips, t, listed, room);
}
