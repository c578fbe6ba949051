// Two logs for C, as include/kaunorpi.h declares it: a list passes as its pointer and its number of
// entries, and an answer is a struct of document 01's numbers. Each export asks the entry of its
// name; a function of_.. puts an answer's numbers into the struct.
#![tactic(auto)]

ghost use Rattle.std.specs.Prelude.{◌≡◌, ◌≤◌, length, drop, Ok};
ghost use Rattle.net.specs.Net.{net_of};
ghost use Rattle.order.specs.Entry.{order_of};
ghost use Rattle.order.specs.Entry as ordered;
ghost use Rattle.order_rest.specs.Rest.{rest_fault};
ghost use Rattle.order_rest.specs.Rest as rest;
ghost use Rattle.c_answer.specs.Hand.{handed};
ghost use Rattle.c_order.specs.Handed.{HandedOrder, handed_rest, handed_unread};

use c_answer::{ANSWERED, Answer, REFUSED};
use ground::Weight;
use net::Lent;
use order::LogOrder;
use orders::Logs;
use refusals::Refusal;

// What the answer to the unread rest says: from letter `start` of log `log` on, `length` letters.
#[repr(C)]
#[derive(Clone, Copy)]
pub struct RestAnswer {
    pub kind: u8,
    pub number: u8,
    pub position: usize,
    pub log: usize,
    pub start: usize,
    pub length: usize,
}

// The answer about two logs, in 01's numbers.
#[tactic(auto, unfolding(c_answer::specs::Hand::handed))]
fn of_order(answer: Result<LogOrder, Refusal>) -> Answer
    ensures { result ≡ handed (ordered.numbers answer) }
{
    match answer {
        Ok(LogOrder::Found) => Answer {
            kind: ANSWERED,
            number: 0,
            position: 0,
        },
        Ok(LogOrder::NoneFires) => Answer {
            kind: ANSWERED,
            number: 1,
            position: 0,
        },
        Err(why) => Answer {
            kind: REFUSED,
            number: why.number,
            position: why.at,
        },
    }
}

// The order of two logs that fires, in a lent room.
#[unsafe(no_mangle)]
pub extern "C" fn kaunorpi_order_logs(
    places: usize,
    transitions: usize,
    pre: &[Weight],
    post: &[Weight],
    caps: &[u16],
    marks: &[u8],
    initial: &[u16],
    first: &[u8],
    second: &[u8],
    room: &mut [u8],
    work: &mut [u8],
) -> Answer
    ensures { HandedOrder (order_of (net_of places transitions pre.now post.now caps.now marks.now) initial.now first.now second.now room.old work.old) result room.new work.new }
{
    let net = Lent {
        places,
        transitions,
        pre,
        post,
        caps,
        marks,
    };
    let logs = Logs { first, second };
    of_order(order::order_logs(&net, initial, &logs, room, work))
}

// What is refused of the question for the rest, in 01's numbers.
#[tactic(auto, unfolding(c_answer::specs::Hand::handed))]
fn of_fault(told: Result<(), Refusal>) -> Answer
    ensures { result ≡ handed (rest.numbers told) }
{
    match told {
        Ok(()) => Answer {
            kind: ANSWERED,
            number: 0,
            position: 0,
        },
        Err(why) => Answer {
            kind: REFUSED,
            number: why.number,
            position: why.at,
        },
    }
}

// Whether the unread rest may be asked for.
#[unsafe(no_mangle)]
pub extern "C" fn kaunorpi_rest_fault(
    first: &[u8],
    second: &[u8],
    order: &[u8],
    step: usize,
) -> Answer
    ensures { result ≡ handed (rest.numbers (rest_fault first.now second.now order.now step)) }
{
    let logs = Logs { first, second };
    of_fault(order_rest::rest_fault(&logs, order, step))
}

// The rest of a log from one of its letters on, and which log that is.
#[tactic(auto, unfolding(crate::specs::Handed::handed_rest))]
fn rest_from(log: usize, letters: &[u8], start: usize) -> RestAnswer
    requires { start ≤ length letters.now }
    ensures { result ≡ handed_rest (Ok tt) log start (drop start letters.now) }
{
    RestAnswer {
        kind: ANSWERED,
        number: 0,
        position: 0,
        log,
        start,
        length: letters.len() - start,
    }
}

// Where the unread rest of whichever log the step takes from lies in that log.
#[unsafe(no_mangle)]
pub extern "C" fn kaunorpi_unread_rest(
    first: &[u8],
    second: &[u8],
    order: &[u8],
    step: usize,
) -> RestAnswer
    ensures { result ≡ handed_unread first.now second.now order.now step }
{
    let logs = Logs { first, second };
    match order_rest::rest_fault(&logs, order, step) {
        Err(why) => RestAnswer {
            kind: REFUSED,
            number: why.number,
            position: why.at,
            log: 0,
            start: 0,
            length: 0,
        },
        Ok(()) => {
            let which = order[step];
            let n = orders::read_of(order, step, which);
            if which == 0 {
                rest_from(0, first, n)
            } else {
                rest_from(1, second, n)
            }
        }
    }
}
