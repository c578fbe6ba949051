// Marking lists for C, as include/kaunorpi.h declares them: a list passes
// as its pointer and its number of entries, and an answer is a struct of document 01's numbers. Each
// export asks the entry of its name; a function of_.. puts an answer's numbers into the struct.
#![tactic(auto)]

ghost use Rattle.std.specs.Prelude.{◌≡◌, true, [], ◌∷◌, Ok};
ghost use Rattle.net.specs.Net.{net_of};
ghost use Rattle.lists.specs.Answers.{failure_numbers, numbers, claim_numbers};
ghost use Rattle.lists.specs.declared.Kind.TheVariants.{Closed, Cover};
ghost use Rattle.list_check.specs.Given.{list_of, target_of};
ghost use Rattle.closed.specs.Stall.{stall_of};
ghost use Rattle.c_lists.specs.Handed.{handed_list};

use c_answer::{ANSWERED, REFUSED};
use ground::Weight;
use lists::{ClaimAnswer, Failure, ListAnswer};
use net::Lent;
use refusals::Refusal;

// What an answer about a marking list says.
#[repr(C)]
#[derive(Clone, Copy)]
pub struct ListNumbers {
    pub kind: u8,
    pub number: u8,
    pub position: usize,
    pub transition: usize,
}

// An answer that is a number alone.
fn answered(number: u8) -> ListNumbers
    ensures { result ≡ handed_list (0x81 ∷ number ∷ []) }
{
    ListNumbers {
        kind: ANSWERED,
        number,
        position: 0,
        transition: 0,
    }
}

// A refusal.
fn refused(why: Refusal) -> ListNumbers
    ensures { result ≡ handed_list (0x82 ∷ why.number ∷ why.at ∷ []) }
{
    ListNumbers {
        kind: REFUSED,
        number: why.number,
        position: why.at,
        transition: 0,
    }
}

// A list's failure: 1 initial missing, or 2 with the marking and the transition.
fn of_failure(why: Failure) -> ListNumbers
    ensures { result ≡ handed_list (0x81 ∷ failure_numbers why) }
{
    match why {
        Failure::InitialMissing => answered(1),
        Failure::ResultMissing(marking, transition) => ListNumbers {
            kind: ANSWERED,
            number: 2,
            position: marking,
            transition,
        },
    }
}

// The answer about a list, in 01's numbers.
fn of_list(answer: Result<ListAnswer, Refusal>) -> ListNumbers
    ensures { result ≡ handed_list (numbers answer) }
{
    match answer {
        Ok(ListAnswer::Accepted) => answered(0),
        Ok(ListAnswer::Failed(why)) => of_failure(why),
        Err(why) => refused(why),
    }
}

// The answer about what a list is to show, in 01's numbers.
fn of_claim(answer: Result<ClaimAnswer, Refusal>) -> ListNumbers
    ensures { result ≡ handed_list (claim_numbers answer) }
{
    match answer {
        Ok(ClaimAnswer::Shown) => answered(0),
        Ok(ClaimAnswer::NotShown) => answered(3),
        Ok(ClaimAnswer::Failed(why)) => of_failure(why),
        Err(why) => refused(why),
    }
}

// Whether a list of markings is closed.
#[unsafe(no_mangle)]
pub extern "C" fn kaunorpi_closed_list(
    places: usize,
    transitions: usize,
    pre: &[Weight],
    post: &[Weight],
    caps: &[u16],
    marks: &[u8],
    initial: &[u16],
    list: &[u16],
) -> ListNumbers
    ensures { result ≡ handed_list (numbers (list_of Closed (net_of places transitions pre.now post.now caps.now marks.now) initial.now list.now true (Ok tt))) }
{
    let net = Lent {
        places,
        transitions,
        pre,
        post,
        caps,
        marks,
    };
    of_list(closed::closed_list(&net, initial, list))
}

// Whether a closed list shows that a target is never reached.
#[unsafe(no_mangle)]
pub extern "C" fn kaunorpi_closed_target(
    places: usize,
    transitions: usize,
    pre: &[Weight],
    post: &[Weight],
    caps: &[u16],
    marks: &[u8],
    initial: &[u16],
    list: &[u16],
    target: &[u16],
) -> ListNumbers
    ensures { result ≡ handed_list (claim_numbers (target_of Closed (net_of places transitions pre.now post.now caps.now marks.now) initial.now list.now target.now)) }
{
    let net = Lent {
        places,
        transitions,
        pre,
        post,
        caps,
        marks,
    };
    of_claim(closed::closed_target(&net, initial, list, target))
}

// Whether a closed list shows that the line never stalls.
#[unsafe(no_mangle)]
pub extern "C" fn kaunorpi_closed_stall(
    places: usize,
    transitions: usize,
    pre: &[Weight],
    post: &[Weight],
    caps: &[u16],
    marks: &[u8],
    initial: &[u16],
    list: &[u16],
) -> ListNumbers
    ensures { result ≡ handed_list (claim_numbers (stall_of (net_of places transitions pre.now post.now caps.now marks.now) initial.now list.now)) }
{
    let net = Lent {
        places,
        transitions,
        pre,
        post,
        caps,
        marks,
    };
    of_claim(closed::closed_stall(&net, initial, list))
}

// Whether a list of markings is a cover list.
#[unsafe(no_mangle)]
pub extern "C" fn kaunorpi_cover_list(
    places: usize,
    transitions: usize,
    pre: &[Weight],
    post: &[Weight],
    caps: &[u16],
    marks: &[u8],
    initial: &[u16],
    list: &[u16],
) -> ListNumbers
    ensures { result ≡ handed_list (numbers (list_of Cover (net_of places transitions pre.now post.now caps.now marks.now) initial.now list.now true (Ok tt))) }
{
    let net = Lent {
        places,
        transitions,
        pre,
        post,
        caps,
        marks,
    };
    of_list(cover::cover_list(&net, initial, list))
}

// Whether a cover list shows that a target is never covered.
#[unsafe(no_mangle)]
pub extern "C" fn kaunorpi_cover_target(
    places: usize,
    transitions: usize,
    pre: &[Weight],
    post: &[Weight],
    caps: &[u16],
    marks: &[u8],
    initial: &[u16],
    list: &[u16],
    target: &[u16],
) -> ListNumbers
    ensures { result ≡ handed_list (claim_numbers (target_of Cover (net_of places transitions pre.now post.now caps.now marks.now) initial.now list.now target.now)) }
{
    let net = Lent {
        places,
        transitions,
        pre,
        post,
        caps,
        marks,
    };
    of_claim(cover::cover_target(&net, initial, list, target))
}
