// Inner: an index over a closed list, so that a marking is looked for among few listed ones, by the
// bucket that a hash of its numbers gives. Its two tables are lent; `Index` holds both.
#![tactic(auto)]

ghost use Rattle.std.specs.Prelude.{◌≡◌, ◌+◌, ◌*◌, ◌/◌, ◌%◌, ◌≤◌, ◌<◌, length, replicate};
ghost use Rattle.ground.specs.Limits.{count_limit, list_limit};
ghost use Rattle.ground.specs.Lists.{bit};
ghost use Rattle.refusals.specs.Given.{unlike};
ghost use Rattle.lists.specs.Whole.{Whole};
ghost use Rattle.lists.specs.Match.{alike, held_in};
ghost use Rattle.lists.specs.declared.Kind.TheVariants.{Closed};
ghost use Rattle.list_index.specs.Index.{bucket_count, hash_limit, bucket_size, mix_of, hash_of, bucket_of, change_of, Changes, Indexed};

use ground::{COUNT_LIMIT, LIST_LIMIT, Weight};
use lists::Markings;
use net::Net;

// How many buckets there are.
pub const BUCKET_COUNT: usize = 8192;

// A hash is below this, so that it and a number, times the factor, stay below 2^64.
const HASH_LIMIT: u64 = 4294967296;

// How many hashes a bucket has.
const BUCKET_SIZE: u64 = 524288;

// A prime, by which small numbers at any places come to lie far apart.
const FACTOR: u64 = 374761393;

// The latest listed marking of each bucket, and for each listed marking the one before it in its
// bucket. 0 is none, k + 1 marking number k: an entry has 16 bits, so that the index stays small.
#[derive(Drop)]
pub struct Index {
    pub heads: [u16; BUCKET_COUNT],
    pub links: [u16; LIST_LIMIT],
}

// An empty table of buckets.
pub fn no_heads() -> [u16; BUCKET_COUNT]
    ensures { result ≡ replicate bucket_count 0 }
{
    [0; BUCKET_COUNT]
}

// Room for the links of the longest list.
pub fn no_links() -> [u16; LIST_LIMIT]
    ensures { result ≡ replicate list_limit 0 }
{
    [0; LIST_LIMIT]
}

// Room for what each transition of the largest net adds to a hash.
pub fn no_changes() -> [u64; COUNT_LIMIT]
    ensures { length result ≡ count_limit }
{
    [0; COUNT_LIMIT]
}

// The entry that stands for marking number k.
fn entry_of(k: usize) -> u16
    requires { k < list_limit }
    ensures { result ≡ k + 1 }
{
    (k + 1) as u16
}

// A hash with one more number in it.
fn mix(hash: u64, number: u16) -> u64
    requires { hash < hash_limit }
    ensures { result ≡ mix_of hash number }
{
    (hash + u64::from(number)) * FACTOR % HASH_LIMIT
}

// The hash of a listed marking, or of what a transition takes or puts.
pub fn hash_of(numbers: &[u16]) -> u64
    ensures { result ≡ hash_of numbers.now }
{
    let mut h = 0;
    for p in 0..numbers.len() {
        h = mix(h, numbers[p]);
    }
    h
}

// The bucket of a hash: its highest bits.
fn bucket_at(hash: u64) -> usize
    ensures { result ≡ hash / bucket_size }
{
    (hash / BUCKET_SIZE) as usize
}

// The bucket of a listed marking.
fn listed_bucket(listed: &[u16]) -> usize
    ensures { (result ≡ bucket_of listed.now) × (result < bucket_count) }
{
    let hash = hash_of(listed);
    bucket_at(hash)
}

// What a transition adds to the hash of any marking: a hash is a sum of multiples of the numbers.
fn change_of(takes: &[Weight], puts: &[Weight]) -> u64
    ensures { result ≡ change_of takes.now puts.now }
{
    let taken = hash_of(takes);
    let put = hash_of(puts);
    (put + HASH_LIMIT - taken) % HASH_LIMIT
}

// The same for each transition of a net, once for all pairs.
pub fn make_changes(net: &Net, changes: &mut [u64])
    requires pre_len { (length net.now.pre.now ≡ net.now.transitions * net.now.places) × (length net.now.post.now ≡ net.now.transitions * net.now.places) }
    requires transitions_in_bounds { net.now.transitions ≤ length changes.old }
    ensures { Changes net.now.places net.now.transitions net.now.pre.now net.now.post.now changes.new }
{
    for t in 0..net.transitions {
        changes[t] = change_of(net.takes(t), net.puts(t));
    }
}

// The hash of a result, from that of the marking and what the transition adds.
pub fn hash_after(hash: u64, change: u64) -> u64
    requires { (hash < hash_limit) × (change < hash_limit) }
    ensures { result ≡ (hash + change) % hash_limit }
{
    (hash + change) % HASH_LIMIT
}

// The index of a list, into tables of which that of the buckets is empty.
pub fn make_index(list: &Markings, heads: &mut [u16], links: &mut [u16])
    requires whole { Whole list.now }
    requires count_le_list_limit { list.now.count ≤ list_limit }
    requires heads_value { heads.old ≡ replicate bucket_count 0 }
    requires links_len { length links.old ≡ list_limit }
    ensures { Indexed list.now.places list.now.count list.now.list.now heads.new links.new }
{
    for k in 0..list.count {
        let b = listed_bucket(list.marking(k));
        links[k] = heads[b];
        heads[b] = entry_of(k);
    }
}

// 1 where one place of two markings differs, else 0: a number, so that a pass over the places only
// adds.
fn differs_at(listed: u16, tokens: u32) -> u32
    ensures { result ≡ bit (unlike listed tokens) }
{
    u32::from(u32::from(listed) != tokens)
}

// Whether two markings are the same: one plain pass over the places, with no way out on the way, since
// what stands in a marking's bucket is mostly that marking, and is compared to the end in any case.
fn is_same(listed: &[u16], marking: &[u32]) -> bool
    requires { (length listed.now ≡ length marking.now) × (length marking.now ≤ count_limit) }
    ensures { result ≡ alike listed.now marking.now }
{
    let mut differing: u32 = 0;
    for p in 0..marking.len() {
        differing += differs_at(listed[p], marking[p]);
    }
    differing == 0
}

// Whether the list holds a marking of this hash: only those in its bucket are compared with it, the
// latest first.
pub fn find(list: &Markings, heads: &[u16], links: &[u16], hash: u64, marking: &[u32]) -> bool
    requires whole { Whole list.now }
    requires marking_len { (length marking.now ≡ list.now.places) × (list.now.places ≤ count_limit) }
    requires indexed { Indexed list.now.places list.now.count list.now.list.now heads.now links.now }
    requires hash_value { hash ≡ hash_of marking.now }
    ensures { result ≡ held_in Closed list.now marking.now }
{
    let b = bucket_at(hash);
    let mut at = usize::from(heads[b]);
    while 0 < at {
        let k = at - 1;
        if is_same(list.marking(k), marking) {
            return true;
        }
        at = usize::from(links[k]);
    }
    false
}
