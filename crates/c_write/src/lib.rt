// A case file written back for C, as include/kaunorpi.h declares it: a list passes as its pointer and
// its number of entries, and an answer is a struct of document 01's numbers. Each export asks the
// entry of its name; a function of_.. puts an answer's numbers into the struct.
#![tactic(auto)]

ghost use Rattle.std.specs.Prelude.{◌≡◌};
ghost use Rattle.net.specs.Net.{net_of};
ghost use Rattle.file_write.specs.Told.{length_of, numbers};
ghost use Rattle.file_write.specs.Entry.{write_of};
ghost use Rattle.c_write.specs.Handed.{handed_length, HandedFile};

use c_answer::{ANSWERED, REFUSED};
use ground::Weight;
use net::Lent;
use refusals::Refusal;

// What the answer to a case file's length says, and the answer to writing one.
#[repr(C)]
#[derive(Clone, Copy)]
pub struct LengthAnswer {
    pub kind: u8,
    pub number: u8,
    pub position: usize,
    pub length: usize,
}

// The answer about a length, in 01's numbers.
fn of_length(answer: Result<usize, Refusal>) -> LengthAnswer
    ensures { result ≡ handed_length (numbers answer) }
{
    match answer {
        Ok(length) => LengthAnswer {
            kind: ANSWERED,
            number: 0,
            position: 0,
            length,
        },
        Err(refusal) => LengthAnswer {
            kind: REFUSED,
            number: refusal.number,
            position: refusal.at,
            length: 0,
        },
    }
}

// How long the case file of a net, its initial marking and a word is.
#[unsafe(no_mangle)]
pub extern "C" fn kaunorpi_case_length(
    places: usize,
    transitions: usize,
    pre: &[Weight],
    post: &[Weight],
    caps: &[u16],
    marks: &[u8],
    initial: &[u16],
    word: &[u8],
) -> LengthAnswer
    ensures { result ≡ handed_length (numbers (length_of (net_of places transitions pre.now post.now caps.now marks.now) initial.now word.now)) }
{
    let net = Lent {
        places,
        transitions,
        pre,
        post,
        caps,
        marks,
    };
    of_length(file_write::case_length(&net, initial, word))
}

// The case file of a net, its initial marking and a word, at the front of a lent room.
#[unsafe(no_mangle)]
pub extern "C" fn kaunorpi_write_case(
    places: usize,
    transitions: usize,
    pre: &[Weight],
    post: &[Weight],
    caps: &[u16],
    marks: &[u8],
    initial: &[u16],
    word: &[u8],
    room: &mut [u8],
) -> LengthAnswer
    ensures { HandedFile (write_of (net_of places transitions pre.now post.now caps.now marks.now) initial.now word.now room.old) result room.new }
{
    let net = Lent {
        places,
        transitions,
        pre,
        post,
        caps,
        marks,
    };
    of_length(file_write::write_case(&net, initial, word, room))
}
