// Inner: weights over a limit: whether the rows of a transition have one, and the lowest transition
// with a weight over what document 02 allows.
#![tactic(auto)]

ghost use Rattle.std.specs.Prelude.{◌≡◌, ◌||◌, ◌≤◌, ◌<◌, ltb, length};
ghost use Rattle.ground.specs.Limits.{count_limit};
ghost use Rattle.ground.specs.Lists.{bit, found};
ghost use Rattle.net.specs.Lent.{lent};
ghost use Rattle.net.specs.Net.{Sized};
ghost use Rattle.weights.specs.Heavy.{row_over, heavy, lowest_heavy};

use ground::{WEIGHT_LIMIT, Weight};
use net::{Net, SizedNet};

// 1 where a weight taken or put is over the limit, else 0: a number, so that a pass over a row only
// adds.
pub fn over_at(limit: u32, takes: Weight, puts: Weight) -> u32
    ensures { result ≡ bit (ltb limit takes || ltb limit puts) }
{
    u32::from(limit < u32::from(takes) || limit < u32::from(puts))
}

// Whether a row of Pre, or the row of Post beside it, has a weight over the limit: one plain pass,
// with no way out on the way.
pub fn has_over(limit: u32, takes: &[Weight], puts: &[Weight]) -> bool
    requires { (length puts.now ≡ length takes.now) × (length takes.now ≤ count_limit) }
    ensures { result ≡ row_over limit takes.now puts.now }
{
    let mut over: u32 = 0;
    for p in 0..takes.len() {
        over += over_at(limit, takes[p], puts[p]);
    }
    0 < over
}

// Whether a transition has a weight over what is allowed, in Pre or in Post.
fn is_heavy(sized: &SizedNet, t: usize) -> bool
    requires { t < sized.now.net.transitions }
    ensures { result ≡ heavy (lent sized.now.net) t }
{
    has_over(WEIGHT_LIMIT, sized.takes(t), sized.puts(t))
}

// The lowest such transition, if there is one.
pub fn heavy_transition(sized: &SizedNet) -> Option<usize>
    ensures { result ≡ found sized.now.net.transitions (lowest_heavy (lent sized.now.net)) }
{
    for t in 0..sized.net.transitions {
        if is_heavy(sized, t) {
            return Some(t);
        }
    }
    None
}
