// Inner: a listed marking and a transition: whether the result is missing, in a list of either kind;
// and the first listed marking, and in it the lowest transition, for which it is. The room for a
// result is made once for a list.
#![tactic(auto)]

ghost use Rattle.std.specs.Prelude.{◌≡◌, false, true, ◌+◌, ◌*◌, ◌<◌, ◌≤◌, length, replicate};
ghost use Rattle.ground.specs.Limits.{list_limit};
ghost use Rattle.net.specs.Lent.{lent};
ghost use Rattle.lists.specs.Whole.{Whole, marking_of};
ghost use Rattle.lists.specs.Match.{held_in};
ghost use Rattle.lists.specs.declared.Kind.TheVariants.{Closed, Cover};
ghost use Rattle.list_index.specs.Index.{bucket_count, hash_of};
ghost use Rattle.list_arcs.specs.Arc.{Within};
ghost use Rattle.list_pairs.specs.Fire.{lacks, passes_any, after_any, fired_any};
ghost use Rattle.list_pairs.specs.Look.{Kept, Hashed, Fitting, uncovered, results};
ghost use Rattle.list_pairs.specs.Search.{Suits, Tabled, Prepared, unlisted_in, absent_in, missing_in, results_in};

use ground::{COUNT_LIMIT, TOKEN_LIMIT, Weight};
use list_arcs::ARC_LIMIT;
use list_index::Index;
use lists::{Failure, Kind, ListAnswer, Markings};
use net::{Net, SizedNet};

// What the pairs of a closed list are judged with, made once for them all: its index, the skips of its
// net, and what each transition adds to a hash. Those of a cover list are compared by order and judged
// without capacities: it has none of this.
#[derive(Drop)]
struct Tables {
    index: Index,
    skips: [u8; ARC_LIMIT],
    changes: [u64; COUNT_LIMIT],
}

// A list to look through, with its net and its tables.
#[derive(Clone, Copy)]
struct Search<'a, 'b> {
    kind: Kind,
    net: &'a Net<'b>,
    list: &'a Markings<'b>,
    tables: &'a Tables,
}

// One place is a number, and less than is taken.
fn is_lacking(takes: Weight, entry: u16) -> bool
    ensures { result ≡ lacks takes entry }
{
    entry <= TOKEN_LIMIT && entry < takes
}

// Whether a transition is enabled at a marking of a cover list, capacities ignored.
fn may_fire_any(places: usize, pre: &[Weight], t: usize, listed: &[u16]) -> bool
    requires places_in_bounds { t * places + places ≤ length pre.now }
    requires listed_len { length listed.now ≡ places }
    ensures { result ≡ passes_any places pre.now t listed.now }
{
    let a = t * places;
    for p in 0..listed.len() {
        if is_lacking(pre[a + p], listed[p]) {
            return false;
        }
    }
    true
}

// One place after the transition; any number stays so.
fn moved(takes: Weight, puts: Weight, entry: u16) -> u32
    requires { lacks takes entry ≡ false }
    ensures { result ≡ after_any takes puts entry }
{
    let tokens = u32::from(entry);
    if entry <= TOKEN_LIMIT {
        return tokens + u32::from(puts) - u32::from(takes);
    }
    tokens
}

// The result of a transition at a marking of a cover list, into the room.
fn fire_any(
    places: usize,
    pre: &[Weight],
    post: &[Weight],
    t: usize,
    listed: &[u16],
    room: &mut [u32],
)
    requires places_in_bounds { (t * places + places ≤ length pre.now) × (t * places + places ≤ length post.now) }
    requires listed_len { (length listed.now ≡ places) × (length room.old ≡ places) }
    requires listed_value { passes_any places pre.now t listed.now ≡ true }
    ensures { room.new ≡ fired_any places pre.now post.now t listed.now }
{
    let a = t * places;
    for p in 0..room.len() {
        room[p] = moved(pre[a + p], post[a + p], listed[p]);
    }
}

// Whether a transition is enabled at a marking of a cover list with a result that the list does not
// cover. The result is made once, in the room. No capacity is lent.
fn is_uncovered(
    places: usize,
    pre: &[Weight],
    post: &[Weight],
    list: &Markings,
    t: usize,
    listed: &[u16],
    room: &mut [u32],
) -> bool
    requires places_in_bounds { (t * places + places ≤ length pre.now) × (t * places + places ≤ length post.now) }
    requires list_len { Whole list.now × (list.now.places ≡ places) }
    requires listed_len { (length listed.now ≡ places) × (length room.old ≡ places) }
    ensures { result ≡ uncovered places pre.now post.now list.now.count list.now.list.now t listed.now }
{
    if may_fire_any(places, pre, t, listed) {
        fire_any(places, pre, post, t, listed, room);
        return !lists::is_held(Kind::Cover, list, room);
    }
    false
}

// The hash of a marking of a closed list; that of a cover list's is not asked for.
fn hash_listed(kind: Kind, list: &Markings, k: usize) -> u64
    requires whole { Whole list.now }
    requires k_lt_count { k < list.now.count }
    ensures { Hashed kind result (marking_of list.now k) }
{
    match kind {
        Kind::Closed => list_index::hash_of(list.marking(k)),
        Kind::Cover => 0,
    }
}

// The tables of a closed list and its net.
fn fill_index(kind: Kind, net: &Net, list: &Markings, tables: &mut Tables)
    requires suits { Suits (lent net.now) list.now }
    requires count_le_list_limit { list.now.count ≤ list_limit }
    requires heads_value { tables.old.index.heads ≡ replicate bucket_count 0 }
    ensures { Tabled kind (lent net.now) list.now tables.new }
{
    match kind {
        Kind::Closed => {
            list_index::make_index(list, &mut tables.index.heads, &mut tables.index.links);
            list_arcs::make_skips(net, &mut tables.skips);
            list_index::make_changes(net, &mut tables.changes);
        }
        Kind::Cover => {}
    }
}

impl Search<'_, '_> {
    // Whether a transition is enabled at a marking of a closed list with a result that the list does not
    // hold. It is judged and fired by its arcs; the result is looked for by the list's index, with a hash
    // that is made from the marking's.
    fn is_unlisted(&self, t: usize, listed: &[u16], hash: u64, room: &mut [u32]) -> bool
        requires prepared { Prepared self.now }
        requires kind_value { self.now.kind ≡ Closed }
        requires t_lt_transitions { t < self.now.net.now.transitions }
        requires listed_len { length listed.now ≡ self.now.net.now.places }
        requires within { Within self.now.net.now.caps.now listed.now }
        requires hash_value { hash ≡ hash_of listed.now }
        requires room_len { length room.old ≡ self.now.net.now.places }
        ensures { result ≡ unlisted_in self.now t listed.now }
    {
        let sized = SizedNet { net: *self.net };
        if list_arcs::may_fire_listed(&sized, &self.tables.skips, t, listed) {
            list_arcs::fire_listed(&sized, &self.tables.skips, t, listed, room);
            let after = list_index::hash_after(hash, self.tables.changes[t]);
            let index = &self.tables.index;
            return !list_index::find(self.list, &index.heads, &index.links, after, room);
        }
        false
    }

    // The same for a list of either kind.
    fn is_absent(&self, t: usize, listed: &[u16], hash: u64, room: &mut [u32]) -> bool
        requires prepared { Prepared self.now }
        requires t_lt_transitions { t < self.now.net.now.transitions }
        requires listed_len { length listed.now ≡ self.now.net.now.places }
        requires fitting { Fitting self.now.kind self.now.net.now.caps.now listed.now }
        requires hashed { Hashed self.now.kind hash listed.now }
        requires room_len { length room.old ≡ self.now.net.now.places }
        ensures { result ≡ absent_in self.now t listed.now }
    {
        let net = self.net;
        match self.kind {
            Kind::Closed => self.is_unlisted(t, listed, hash, room),
            Kind::Cover => is_uncovered(net.places, net.pre, net.post, self.list, t, listed, room),
        }
    }

    // Whether the result of one transition at one listed marking is missing, each by its number.
    fn is_missing(&self, k: usize, hash: u64, t: usize, room: &mut [u32]) -> bool
        requires prepared { Prepared self.now }
        requires k_lt_count { k < self.now.list.now.count }
        requires t_lt_transitions { t < self.now.net.now.transitions }
        requires hashed { Hashed self.now.kind hash (marking_of self.now.list.now k) }
        requires room_len { length room.old ≡ self.now.net.now.places }
        ensures { result ≡ missing_in self.now k t }
    {
        self.is_absent(t, self.list.marking(k), hash, room)
    }

    // The first listed marking, and in it the lowest transition, whose result is missing. A marking's
    // hash is made once for all transitions.
    fn first_missing(&self, room: &mut [u32]) -> ListAnswer
        requires prepared { Prepared self.now }
        requires room_len { length room.old ≡ self.now.net.now.places }
        ensures { result ≡ results_in self.now }
    {
        let mut answer = ListAnswer::Accepted;
        'markings: for k in 0..self.list.count {
            let hash = hash_listed(self.kind, self.list, k);
            for t in 0..self.net.transitions {
                if self.is_missing(k, hash, t, room) {
                    answer = ListAnswer::Failed(Failure::ResultMissing(k, t));
                    break 'markings;
                }
            }
        }
        answer
    }
}

// The same, with tables and a room of its own.
pub fn look_up(kind: Kind, net: &Net, list: &Markings) -> ListAnswer
    requires suits { Suits (lent net.now) list.now }
    requires count_le_list_limit { list.now.count ≤ list_limit }
    requires kept { Kept kind (lent net.now) list.now.count list.now.list.now }
    ensures { result ≡ results kind (lent net.now) list.now.count list.now.list.now }
{
    let mut tables = Tables {
        index: Index {
            heads: list_index::no_heads(),
            links: list_index::no_links(),
        },
        skips: list_arcs::no_skips(),
        changes: list_index::no_changes(),
    };
    fill_index(kind, net, list, &mut tables);
    let search = Search {
        kind,
        net,
        list,
        tables: &tables,
    };
    let mut room = lists::no_tokens();
    search.first_missing(&mut room[..net.places])
}
