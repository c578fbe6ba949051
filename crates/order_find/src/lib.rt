// Inner: an order of two logs that fires is looked for, the first log's letters tried first. The
// marking is fired forward and taken back; the work space remembers from where no order fires, so
// that each pair of letters read is looked at once.
#![tactic(auto)]

ghost use Rattle.std.specs.Prelude.{◌≡◌, not, ◌<◌, ◌≤◌, eqb, length, get_or, replicate, set};
ghost use Rattle.ground.specs.Limits.{replay_limit};
ghost use Rattle.net.specs.Lent.{lent};
ghost use Rattle.net.specs.Net.{Sized};
ghost use Rattle.net.specs.Letter.{row, Small, Enough};
ghost use Rattle.orders.specs.Orders.{recorded};
ghost use Rattle.orders.specs.Lengths.{log_limit, work_length};
ghost use Rattle.order_find.specs.Walk.{unread, cell_of, taken_back, Stands, Ends, way_from, way_by, Begins, Sought};

use ground::COUNT_LIMIT;
use net::{Net, WideNet};
use orders::{Logs, ORDER_LIMIT, READ_COUNT};

// A step of an order takes from the one log or from the other.
const FIRST_LOG: usize = 0;

const SECOND_LOG: usize = 1;

// The next unread letter of the log that a step takes from, if it has one left.
fn letter_of(logs: &Logs, which: usize, n: usize, k: usize) -> Option<u8>
    ensures { result ≡ unread logs.now.first.now logs.now.second.now which n k }
{
    if which == FIRST_LOG {
        logs.first.get(n).copied()
    } else {
        logs.second.get(k).copied()
    }
}

// The byte of the work space for n letters of the one log and k of the other read.
fn cell(n: usize, k: usize) -> usize
    requires { (n ≤ log_limit) × (k ≤ log_limit) }
    ensures { result ≡ cell_of n k }
{
    n * READ_COUNT + k
}

// Whether it is remembered that from there no order of the rest fires.
fn is_dead(n: usize, k: usize, work: &[u8]) -> bool
    requires n_le_log_limit { (n ≤ log_limit) × (k ≤ log_limit) }
    requires work_len { length work.now ≡ work_length }
    ensures { result ≡ not (eqb (get_or work.now (cell_of n k) 0) 0) }
{
    work[cell(n, k)] != 0
}

// Remembers it.
fn remember(n: usize, k: usize, work: &mut [u8])
    requires n_le_log_limit { (n ≤ log_limit) × (k ≤ log_limit) }
    requires work_len { length work.old ≡ work_length }
    ensures { work.new ≡ set work.old (cell_of n k) 1 }
{
    work[cell(n, k)] = 1;
}

// Takes back a transition that was fired, by its number, in place: what it put is taken, and what it
// took is put.
fn take_back(net: &WideNet, t: usize, marking: &mut [u32])
    requires sized { Sized (lent net.now) }
    requires t_lt_transitions { t < net.now.transitions }
    requires marking_len { length marking.old ≡ net.now.places }
    requires small { Small replay_limit marking.old }
    requires enough { Enough (row net.now.places t net.now.post.now) marking.old }
    ensures { marking.new ≡ taken_back (lent net.now) t marking.old }
{
    net::fire(net.puts(t), net.takes(t), marking);
}

// One step from log `which`, then the rest: taken back where the rest cannot be ordered.
#[cycle(look_take)]
fn take(
    net: &WideNet,
    logs: &Logs,
    which: usize,
    n: usize,
    k: usize,
    marking: &mut [u32],
    path: &mut [u8],
    work: &mut [u8],
) -> bool
    requires which_bound { which < 2 }
    requires stands { Stands (recorded (lent net.now) logs.now) n k marking.old path.old work.old }
    ensures { Ends (recorded (lent net.now) logs.now) n k marking.old path.old (way_by (recorded (lent net.now) logs.now) which n k marking.old) result marking.new path.new work.new }
{
    let Some(letter) = letter_of(logs, which, n, k) else {
        return false;
    };
    let t = usize::from(letter);
    if !net::may_fire_at(net, t, marking) {
        return false;
    }
    net::fire_at(net, t, marking);
    path[n + k] = which as u8;
    if look(net, logs, n + (1 - which), k + which, marking, path, work) {
        return true;
    }
    take_back(net, t, marking);
    false
}

// From n letters of the one log and k of the other read: an order of the rest, if there is one.
#[cycle(look_take)]
fn look(
    net: &WideNet,
    logs: &Logs,
    n: usize,
    k: usize,
    marking: &mut [u32],
    path: &mut [u8],
    work: &mut [u8],
) -> bool
    requires { Stands (recorded (lent net.now) logs.now) n k marking.old path.old work.old }
    ensures { Ends (recorded (lent net.now) logs.now) n k marking.old path.old (way_from (recorded (lent net.now) logs.now) n k marking.old) result marking.new path.new work.new }
{
    if n + k == logs.first.len() + logs.second.len() {
        return true;
    }
    if is_dead(n, k, work) {
        return false;
    }
    if take(net, logs, FIRST_LOG, n, k, marking, path, work) {
        return true;
    }
    if take(net, logs, SECOND_LOG, n, k, marking, path, work) {
        return true;
    }
    remember(n, k, work);
    false
}

// Sets every byte of the work space to 0.
fn clear(work: &mut [u8])
    ensures { work.new ≡ replicate (length work.old) 0 }
{
    work.fill(0);
}

// The search from the initial marking, in a marking of its own; capacities and marks are copied once.
fn start(
    net: &Net,
    initial: &[u16],
    logs: &Logs,
    marking: &mut [u32],
    path: &mut [u8],
    work: &mut [u8],
) -> bool
    requires marking_len { length marking.old ≡ net.now.places }
    requires stands { Stands (recorded (lent net.now) logs.now) 0 0 initial.now path.old work.old }
    ensures { Ends (recorded (lent net.now) logs.now) 0 0 initial.now path.old (way_from (recorded (lent net.now) logs.now) 0 0 initial.now) result marking.new path.new work.new }
{
    let caps = net::wide_caps(net.caps);
    let marks = net::wide_marks(net.marks);
    let wide = net::widened(net, &caps, &marks);
    net::load(initial, marking);
    look(&wide, logs, 0, 0, marking, path, work)
}

// The order of two logs that fires from the initial marking and takes from the first log as early as
// can be, into the room. The path lies in memory of its own until it is known to be whole.
pub fn find_order(net: &Net, initial: &[u16], logs: &Logs, room: &mut [u8], work: &mut [u8]) -> bool
    requires { Begins (recorded (lent net.now) logs.now) initial.now room.old work.old }
    ensures { Sought (recorded (lent net.now) logs.now) initial.now room.old result room.new work.new }
{
    clear(work);
    let mut marking = [0u32; COUNT_LIMIT];
    let mut path = [0u8; ORDER_LIMIT];
    let found = start(
        net,
        initial,
        logs,
        &mut marking[..net.places],
        &mut path,
        work,
    );
    clear(work);
    if found {
        room.copy_from_slice(&path[..room.len()]);
    }
    found
}
