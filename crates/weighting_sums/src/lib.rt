// Inner: weighted sums, along the rows and columns of a net's tables and of a marking, and the entries
// of a weighting: which are negative, and whether all are 0.
#![tactic(auto)]

ghost use Rattle.std.specs.Prelude.{◌≡◌, not, ◌+◌, ◌*◌, ◌≤◌, ◌<◌, length};
ghost use Rattle.ground.specs.Limits.{count_limit, entry_limit};
ghost use Rattle.ground.specs.Lists.{first, found};
ghost use Rattle.net.specs.Lent.{lent};
ghost use Rattle.net.specs.Net.{Sized};
ghost use Rattle.refusals.specs.Given.{refuse};
ghost use Rattle.weighting_sums.specs.Tests.{is_zero, picks, lowest_entry, lowest_transition, lowest_place, all_zero};
ghost use Rattle.weighting_sums.specs.Walk.{product_limit, share, share_limit, total, signed, line_sum, line_fails, Line, Lines, held};

use ground::{Weight, down_entry, up_entry};
use net::{Net, SizedNet};
use refusals::{Refusal, refuse};

// A part of an entry times a number of 16 bits, as weights and tokens are.
fn times(part: u32, n: u16) -> u64
    requires { part ≤ entry_limit }
    ensures { (result ≡ part * n) × (result ≤ product_limit) }
{
    u64::from(part * u32::from(n))
}

// What an entry and one cell add to what is gained; with takes and puts exchanged, to what is lost.
fn share_of(x: i16, takes: Weight, puts: Weight) -> u64
    ensures { (result ≡ share x takes puts) × (result ≤ share_limit) }
{
    let up = up_entry(x);
    let down = down_entry(x);
    times(up, puts) + times(down, takes)
}

// What one line of the tables adds to a weighted sum, as two unsigned numbers: its sum is what is
// gained less what is lost.
#[derive(Clone, Copy)]
struct Sums {
    gained: u64,
    lost: u64,
}

// The weighted sum of the changes along one line of the tables.
fn line_sums(net: &Net, y: &[i16], start: usize, step: usize) -> Sums
    requires post_len { length net.now.post.now ≡ length net.now.pre.now }
    requires line { Line start step (length y.now) (length net.now.pre.now) }
    ensures { signed result ≡ line_sum (lent net.now) y.now start step }
{
    let pre = net.pre;
    let post = net.post;
    let mut gained: u64 = 0;
    let mut lost: u64 = 0;
    for k in 0..y.len() {
        let at = start + k * step;
        let x = y[k];
        let takes = pre[at];
        let puts = post[at];
        gained += share_of(x, takes, puts);
        lost += share_of(x, puts, takes);
    }
    Sums { gained, lost }
}

// Whether a line's sum is not 0.
fn is_failing(sums: Sums) -> bool
    ensures { result ≡ not (is_zero (signed sums)) }
{
    sums.gained != sums.lost
}

// The lowest of so many lines that fails, if one does. Line i starts at i x apart, and its entries are
// a step apart: rows and columns alike.
fn lowest_failing(net: &Net, y: &[i16], lines: usize, apart: usize, step: usize) -> Option<usize>
    requires post_len { length net.now.post.now ≡ length net.now.pre.now }
    requires lines { Lines lines apart step (length y.now) (length net.now.pre.now) }
    ensures { result ≡ found lines (first (λ i. line_fails (lent net.now) y.now (i * apart) step) lines) }
{
    for i in 0..lines {
        if is_failing(line_sums(net, y, i * apart, step)) {
            return Some(i);
        }
    }
    None
}

// The lowest transition at which a place weighting is not invariant, if there is one.
pub fn lowest_transition(sized: &SizedNet, y: &[i16]) -> Option<usize>
    requires { length y.now ≡ sized.now.net.places }
    ensures { result ≡ found sized.now.net.transitions (lowest_transition (lent sized.now.net) y.now) }
{
    lowest_failing(&sized.net, y, sized.net.transitions, sized.net.places, 1)
}

// The lowest place at which a transition weighting is not invariant, if there is one.
pub fn lowest_place(sized: &SizedNet, x: &[i16]) -> Option<usize>
    requires { length x.now ≡ sized.now.net.transitions }
    ensures { result ≡ found sized.now.net.places (lowest_place (lent sized.now.net) x.now) }
{
    lowest_failing(&sized.net, x, sized.net.places, 1, sized.net.places)
}

// Whether an entry is negative, or else whether it is not 0.
fn is_picked(x: i16, negative: bool) -> bool
    ensures { result ≡ picks negative x }
{
    if negative { x < 0 } else { x != 0 }
}

// The lowest entry that is negative, or else that is not 0, if there is one.
pub fn lowest_entry(y: &[i16], negative: bool) -> Option<usize>
    ensures { result ≡ found (length y.now) (lowest_entry negative y.now) }
{
    for k in 0..y.len() {
        if is_picked(y[k], negative) {
            return Some(k);
        }
    }
    None
}

// Refusal 8.
pub fn zero_fault(y: &[i16]) -> Result<(), Refusal>
    ensures { result ≡ refuse (all_zero y.now) 8 0 }
{
    refuse(lowest_entry(y, false).is_none(), 8, 0)
}

// The sum of weighting times marking, for a weighting with no negative entry.
pub fn weigh(y: &[i16], marking: &[u16]) -> u64
    requires y_len { length y.now ≡ length marking.now }
    requires marking_len_bound { length marking.now ≤ count_limit }
    ensures { result ≡ total (length marking.now) (held y.now marking.now) }
{
    let mut sum: u64 = 0;
    for p in 0..marking.len() {
        sum += times(up_entry(y[p]), marking[p]);
    }
    sum
}
