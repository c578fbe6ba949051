// The complement net and the case file for C, as include/kaunorpi.h declares them: a list passes
// as its pointer and its number of entries, and an answer is a struct of document 01's numbers. Each
// export asks the entry of its name; a function of_.. puts an answer's numbers into the struct.
#![tactic(auto)]

ghost use Rattle.std.specs.Prelude.{◌≡◌};
ghost use Rattle.net.specs.Net.{net_of};
ghost use Rattle.complement.specs.Told.{places_of, places_numbers};
ghost use Rattle.complement.specs.Entry as complement;
ghost use Rattle.complement.specs.Entry.{rooms_of, complement_of};
ghost use Rattle.c_answer.specs.Hand.{handed};
ghost use Rattle.c_net.specs.Handed.{handed_places, HandedNet};
ghost use Rattle.file_line.specs.Read.{rooms};
ghost use Rattle.file_entry.specs.Entry as casefile;
ghost use Rattle.c_net.specs.Cases.{handed_case, HandedCase};

use c_answer::{ANSWERED, Answer, REFUSED};
use file_entry::CaseFile;
use ground::Weight;
use net::Lent;
use refusals::Refusal;

// What the answer to the complement net's places says.
#[repr(C)]
#[derive(Clone, Copy)]
pub struct PlacesAnswer {
    pub kind: u8,
    pub number: u8,
    pub position: usize,
    pub places: usize,
}

// What the answer to a case file says.
#[repr(C)]
#[derive(Clone, Copy)]
pub struct CaseAnswer {
    pub kind: u8,
    pub number: u8,
    pub position: usize,
    pub places: usize,
    pub transitions: usize,
    pub letters: usize,
}

// The answer about the complement's places, in 01's numbers.
#[tactic(auto, unfolding(crate::specs::Handed::handed_places))]
fn of_places(answer: Result<usize, Refusal>) -> PlacesAnswer
    ensures { result ≡ handed_places (places_numbers answer) }
{
    match answer {
        Ok(places) => PlacesAnswer {
            kind: ANSWERED,
            number: 0,
            position: 0,
            places,
        },
        Err(why) => PlacesAnswer {
            kind: REFUSED,
            number: why.number,
            position: why.at,
            places: 0,
        },
    }
}

// How many places the complement net has.
#[unsafe(no_mangle)]
pub extern "C" fn kaunorpi_complement_places(
    places: usize,
    transitions: usize,
    pre: &[Weight],
    post: &[Weight],
    caps: &[u16],
    marks: &[u8],
) -> PlacesAnswer
    ensures { result ≡ handed_places (places_numbers (places_of (net_of places transitions pre.now post.now caps.now marks.now))) }
{
    of_places(complement::complement_places(&Lent {
        places,
        transitions,
        pre,
        post,
        caps,
        marks,
    }))
}

// The answer about the complement net, in 01's numbers.
#[tactic(auto, unfolding(c_answer::specs::Hand::handed))]
fn of_net(answer: Result<(), Refusal>) -> Answer
    ensures { result ≡ handed (complement.numbers answer) }
{
    match answer {
        Ok(()) => Answer {
            kind: ANSWERED,
            number: 0,
            position: 0,
        },
        Err(why) => Answer {
            kind: REFUSED,
            number: why.number,
            position: why.at,
        },
    }
}

// The complement net of a net and its initial marking, written into lent rooms.
#[unsafe(no_mangle)]
pub extern "C" fn kaunorpi_complement_net(
    places: usize,
    transitions: usize,
    pre: &[Weight],
    post: &[Weight],
    caps: &[u16],
    marks: &[u8],
    initial: &[u16],
    pre2: &mut [Weight],
    post2: &mut [Weight],
    caps2: &mut [u16],
    marks2: &mut [u8],
    initial2: &mut [u16],
) -> Answer
    ensures { HandedNet (complement_of (net_of places transitions pre.now post.now caps.now marks.now) initial.now (rooms_of pre2.old post2.old caps2.old marks2.old initial2.old)) result (rooms_of pre2.new post2.new caps2.new marks2.new initial2.new) }
{
    let net = Lent {
        places,
        transitions,
        pre,
        post,
        caps,
        marks,
    };
    of_net(complement::complement_net(&net, initial, pre2, post2, caps2, marks2, initial2))
}

// The answer about a case file, in 01's numbers.
#[tactic(auto, unfolding(crate::specs::Cases::handed_case))]
fn of_case(answer: Result<CaseFile, Refusal>) -> CaseAnswer
    ensures { result ≡ handed_case (casefile.numbers answer) }
{
    match answer {
        Ok(file) => CaseAnswer {
            kind: ANSWERED,
            number: 0,
            position: 0,
            places: file.places,
            transitions: file.transitions,
            letters: file.letters,
        },
        Err(why) => CaseAnswer {
            kind: REFUSED,
            number: why.number,
            position: why.at,
            places: 0,
            transitions: 0,
            letters: 0,
        },
    }
}

// A case file into rooms of the largest sizes.
#[unsafe(no_mangle)]
pub extern "C" fn kaunorpi_read_case(
    file: &[u8],
    caps: &mut [u16],
    marks: &mut [u8],
    initial: &mut [u16],
    pre: &mut [Weight],
    post: &mut [Weight],
    word: &mut [u8],
) -> CaseAnswer
    ensures { HandedCase (casefile.case_file_of file.now (rooms caps.old marks.old initial.old pre.old post.old word.old)) result (rooms caps.new marks.new initial.new pre.new post.new word.new) }
{
    of_case(file_entry::read_case(file, caps, marks, initial, pre, post, word))
}
