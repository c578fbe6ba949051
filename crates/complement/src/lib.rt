// The complement net: a net without capacities that fires the very same words, written into lent
// rooms.
#![tactic(auto)]

ghost use Rattle.std.specs.Prelude.{◌≡◌, ◌+◌, ◌-◌, ◌*◌, ◌≤◌, ◌<◌, ltb, length};
ghost use Rattle.std.proofs.lemmas.List.Edits.{sets};
ghost use Rattle.ground.specs.Limits.{count_limit, no_capacity};
ghost use Rattle.ground.specs.Lists.{table};
ghost use Rattle.net.specs.Lent.{lent};
ghost use Rattle.net.specs.Net.{Sized};
ghost use Rattle.refusals.specs.Given.{or_else, marked_fault, Fine};
ghost use Rattle.complement.specs.Complement.{change_of, changed, pocket_of, made, made_places, complement_places, joined};
ghost use Rattle.complement.specs.Told.{limit_fault, Told};
ghost use Rattle.complement.specs.Entry.{rooms_of, lengths_fit, net_fits, complement_fault, Complemented};
ghost use Rattle.complement.specs.Walk.{Inside, taken_from, put_to, tokens_at, taken_row, put_row, new_pre, new_post, tokens_row};

use ground::{COUNT_LIMIT, NO_CAPACITY, Weight};
use net::{Net, SizedNet};
use refusals::{Refusal, refuse};

// Whether a transition changes a place: it puts there another number than it takes.
fn is_change(takes: Weight, puts: Weight) -> bool
    ensures { result ≡ change_of takes puts }
{
    takes != puts
}

// Whether some transition changes this place: a loop that puts back what it takes does not.
#[tactic(auto, using(ground::proofs::Scan::scans), unfolding(crate::specs::Complement::changed))]
fn is_changed(sized: &SizedNet, p: usize) -> bool
    requires { p < sized.now.net.places }
    ensures { result ≡ changed (lent sized.now.net) p }
{
    for t in 0..sized.net.transitions {
        if is_change(sized.pre_at(p, t), sized.post_at(p, t)) {
            return true;
        }
    }
    false
}

// Whether a place has a capacity.
fn is_capped(cap: u16) -> bool
    ensures { result ≡ ltb cap no_capacity }
{
    cap < NO_CAPACITY
}

// Whether a mark is a pocket's.
fn is_pocket(mark: u8) -> bool
    ensures { result ≡ pocket_of mark }
{
    mark != 0
}

// Whether a place gets a complement place: it has a capacity, and is a pocket, or some transition
// changes it; that of another would hang loose. Here and in `made` alone stands which places do, so it
// is lent the whole net.
#[tactic(auto, unfolding(crate::specs::Complement::made))]
fn is_made(sized: &SizedNet, p: usize) -> bool
    requires { p < sized.now.net.places }
    ensures { result ≡ made (lent sized.now.net) p }
{
    is_capped(sized.net.caps[p]) && (is_pocket(sized.net.marks[p]) || is_changed(sized, p))
}

// How many places get one.
fn count_made(sized: &SizedNet) -> usize
    ensures { result ≡ length (made_places (lent sized.now.net)) }
{
    let mut count: usize = 0;
    for p in 0..sized.net.places {
        if is_made(sized, p) {
            count += 1;
        }
    }
    count
}

// How many places the complement net has: the old ones, and those that get a new one.
fn count_places(sized: &SizedNet) -> usize
    ensures { result ≡ complement_places (lent sized.now.net) }
{
    sized.net.places + count_made(sized)
}

// Every place number, in order.
fn own_places() -> [usize; COUNT_LIMIT]
    ensures { result ≡ table (λ p. p) count_limit }
{
    let mut own = [0; COUNT_LIMIT];
    for p in 0..COUNT_LIMIT {
        own[p] = p;
    }
    own
}

// For each place of the complement net the old place that it stands for: the old ones stand for
// themselves, then come those that get a new place, in order of number.
fn find_sources(sized: &SizedNet) -> [usize; COUNT_LIMIT]
    requires { complement_places (lent sized.now.net) ≤ count_limit }
    ensures { result ≡ sets (table (λ p. p) count_limit) sized.now.net.places (made_places (lent sized.now.net)) }
{
    let mut sources = own_places();
    let mut at = sized.net.places;
    for p in 0..sized.net.places {
        if is_made(sized, p) {
            sources[at] = p;
            at += 1;
        }
    }
    sources
}

// What a transition takes from place q: as before from an old one, its rise from a new one.
fn taken_from(q: usize, places: usize, mark: u8, takes: Weight, puts: Weight) -> Weight
    ensures { result ≡ taken_from (ltb q places) mark takes puts }
{
    if q < places {
        return takes;
    }
    net::rise(mark, takes, puts)
}

// What it puts to place q: as before to an old one; to a new one its rise, and what it takes above
// what it puts. So subtracted, no sum is above a weight.
fn put_to(q: usize, places: usize, mark: u8, takes: Weight, puts: Weight) -> Weight
    ensures { result ≡ put_to (ltb q places) mark takes puts }
{
    if q < places {
        return puts;
    }
    let rises = net::rise(mark, takes, puts);
    takes - (puts - rises)
}

// One transition's weights at all places, into the rooms for Pre and Post from `to` on. A new place
// stands for one with a capacity, whose mark is in force as it is.
fn write_row(
    takes: &[Weight],
    puts: &[Weight],
    marks: &[u8],
    sources: &[usize],
    to: usize,
    pre2: &mut [Weight],
    post2: &mut [Weight],
)
    requires takes_len { length takes.now ≡ length puts.now }
    requires marks_len { length marks.now ≡ length puts.now }
    requires inside { Inside (length puts.now) sources.now }
    requires sources_in_bounds { to + length sources.now ≤ length pre2.old }
    requires sources_in_bounds_2 { to + length sources.now ≤ length post2.old }
    ensures pre2_after { pre2.new ≡ sets pre2.old to (taken_row (length puts.now) takes.now puts.now marks.now sources.now) }
    ensures post2_after { post2.new ≡ sets post2.old to (put_row (length puts.now) takes.now puts.now marks.now sources.now) }
{
    for q in 0..sources.len() {
        let p = sources[q];
        let taken = takes[p];
        let put = puts[p];
        let mark = marks[p];
        pre2[to + q] = taken_from(q, puts.len(), mark, taken, put);
        post2[to + q] = put_to(q, puts.len(), mark, taken, put);
    }
}

// All transitions' weights, row by row.
fn write_rows(sized: &SizedNet, sources: &[usize], pre2: &mut [Weight], post2: &mut [Weight])
    requires inside { Inside sized.now.net.places sources.now }
    requires pre2_len { length pre2.old ≡ sized.now.net.transitions * length sources.now }
    requires post2_len { length post2.old ≡ sized.now.net.transitions * length sources.now }
    ensures pre2_after { pre2.new ≡ joined (new_pre (lent sized.now.net) sources.now) sized.now.net.transitions }
    ensures post2_after { post2.new ≡ joined (new_post (lent sized.now.net) sources.now) sized.now.net.transitions }
{
    for t in 0..sized.net.transitions {
        write_row(
            sized.takes(t),
            sized.puts(t),
            sized.net.marks,
            sources,
            t * sources.len(),
            pre2,
            post2,
        );
    }
}

// The tokens of place q at the start: as before at an old one, capacity minus tokens at a new one.
fn tokens_at(q: usize, places: usize, cap: u16, tokens: u16) -> u16
    requires { tokens ≤ cap }
    ensures { result ≡ tokens_at (ltb q places) cap tokens }
{
    if q < places {
        return tokens;
    }
    cap - tokens
}

// The initial marking of all places.
fn write_tokens(caps: &[u16], initial: &[u16], sources: &[usize], room: &mut [u16])
    requires initial_len { length initial.now ≡ length caps.now }
    requires fine { Fine caps.now initial.now }
    requires inside { Inside (length caps.now) sources.now }
    requires sources_len { length sources.now ≡ length room.old }
    ensures { room.new ≡ tokens_row (length caps.now) caps.now initial.now sources.now }
{
    for q in 0..sources.len() {
        let p = sources[q];
        let cap = caps[p];
        let tokens = initial[p];
        room[q] = tokens_at(q, caps.len(), cap, tokens);
    }
}

// The lengths of the rooms: for Pre, Post, the capacities, the marks and the initial marking.
#[derive(Clone, Copy)]
struct Lengths {
    pre: usize,
    post: usize,
    caps: usize,
    marks: usize,
    initial: usize,
}

// Whether the rooms have the new net's lengths.
fn is_fitting(rooms: &Lengths, cells: usize, wide: usize) -> bool
    ensures { result ≡ lengths_fit cells wide rooms.now.pre rooms.now.post rooms.now.caps rooms.now.marks rooms.now.initial }
{
    rooms.pre == cells
        && rooms.post == cells
        && rooms.caps == wide
        && rooms.marks == wide
        && rooms.initial == wide
}

// Refusal 10.
#[tactic(auto, unfolding(crate::specs::Told::limit_fault))]
fn limit_fault(wide: usize) -> Result<(), Refusal>
    ensures { result ≡ limit_fault wide }
{
    refuse(COUNT_LIMIT < wide, 10, 0)
}

// Refusals 1, 2, 18, 3 and 17, then 10, once the number of places is known.
fn later_fault(net: &Net, initial: &[u16], wide: usize, fits: bool) -> Result<(), Refusal>
    ensures { result ≡ or_else (marked_fault (lent net.now) initial.now fits) (limit_fault wide) }
{
    refusals::marked_fault(net, initial, fits)?;
    limit_fault(wide)
}

// Refusals 1, 2, 18, 3, 17 and 10, from the rooms' lengths. It is not lent the rooms, so a refusal cannot
// touch them. Places are counted only where counts and lengths agree, so nothing overflows; where
// they do not, 1 or 2 is given whatever the rooms are.
fn find_fault(net: &Net, initial: &[u16], rooms: &Lengths) -> Result<(), Refusal>
    ensures { result ≡ complement_fault (lent net.now) initial.now (net_fits (lent net.now) rooms.now.pre rooms.now.post rooms.now.caps rooms.now.marks rooms.now.initial) }
{
    if !refusals::is_sized(net) {
        return refusals::marked_fault(net, initial, false);
    }
    let sized = SizedNet { net: *net };
    let wide = count_places(&sized);
    let cells = net.transitions * wide;
    later_fault(net, initial, wide, is_fitting(rooms, cells, wide))
}

// How many places the complement net of a net has.
pub fn complement_places(net: &Net) -> Result<usize, Refusal>
    ensures { Told (lent net.now) result }
{
    refusals::net_fault(net, true)?;
    let sized = SizedNet { net: *net };
    let wide = count_places(&sized);
    limit_fault(wide)?;
    Ok(wide)
}

// The complement net of a net and its initial marking, written into rooms of exactly its lengths:
// Pre and Post, the capacities, the marks, the initial marking. No capacity remains, and every place is
// plain. A refusal leaves every room as found.
pub fn complement_net(
    net: &Net,
    initial: &[u16],
    pre2: &mut [Weight],
    post2: &mut [Weight],
    caps2: &mut [u16],
    marks2: &mut [u8],
    initial2: &mut [u16],
) -> Result<(), Refusal>
    ensures { Complemented (lent net.now) initial.now (rooms_of pre2.old post2.old caps2.old marks2.old initial2.old) result (rooms_of pre2.new post2.new caps2.new marks2.new initial2.new) }
{
    let rooms = Lengths {
        pre: pre2.len(),
        post: post2.len(),
        caps: caps2.len(),
        marks: marks2.len(),
        initial: initial2.len(),
    };
    find_fault(net, initial, &rooms)?;
    let sized = SizedNet { net: *net };
    let found = find_sources(&sized);
    let sources = &found[..rooms.caps];
    write_rows(&sized, sources, pre2, post2);
    caps2.fill(NO_CAPACITY);
    marks2.fill(0);
    write_tokens(net.caps, initial, sources, initial2);
    Ok(())
}
