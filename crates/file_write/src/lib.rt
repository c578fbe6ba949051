// Case files written back: a net, its initial marking and a word as the one case file that says them, put
// into lent room; and how long that file is, so that the right room can be lent.
#![tactic(auto)]

ghost use Rattle.std.specs.Prelude.{◌≡◌, ◌≤◌};
ghost use Rattle.ground.specs.Limits.{word_limit};
ghost use Rattle.net.specs.Lent.{lent};
ghost use Rattle.net.specs.Net.{Sized};
ghost use Rattle.file_mask.specs.Mask.{mask_of};
ghost use Rattle.file_out.specs.Length.{wide_rows, file_length};
ghost use Rattle.file_write.specs.Told.{text_fault, LengthTold};
ghost use Rattle.file_write.specs.Entry.{write_fault, CaseWritten};

use net::{Net, SizedNet};
use refusals::Refusal;

// Refusals 1 to 5, 17 and 18: what is wrong with the net, its marking and the word.
fn text_fault(net: &Net, initial: &[u16], word: &[u8]) -> Result<(), Refusal>
    ensures { result ≡ text_fault (lent net.now) initial.now word.now }
{
    refusals::marked_fault(net, initial, true)?;
    refusals::word_fault(net.transitions, word)
}

// How long the file is of what is not refused. Its wide rows are counted first: they have more digits.
#[tactic(auto, using(file_out::proofs::Length::wide_most))]
fn text_length(sized: &SizedNet, letters: usize) -> usize
    requires { letters ≤ word_limit }
    ensures { result ≡ file_length sized.now.net.places sized.now.net.transitions (wide_rows (lent sized.now.net)) (mask_of sized.now.net.marks.now) letters }
{
    let wide = file_out::wide_rows(sized);
    let mask = file_mask::mask_of(sized.net.marks);
    file_out::file_length(sized.net.places, sized.net.transitions, wide, mask, letters)
}

// All refusals, 14 last: the room is shorter than the file. It is lent the room's length alone, so a
// refusal cannot touch the room.
fn write_fault(net: &Net, initial: &[u16], word: &[u8], room: usize) -> Result<(), Refusal>
    ensures { result ≡ write_fault (lent net.now) initial.now word.now room }
{
    text_fault(net, initial, word)?;
    let sized = SizedNet { net: *net };
    let needed = text_length(&sized, word.len());
    refusals::refuse(room < needed, 14, 0)
}

// How long the case file of a net, its initial marking and a word is.
pub fn case_length(net: &Net, initial: &[u16], word: &[u8]) -> Result<usize, Refusal>
    ensures { LengthTold (lent net.now) initial.now word.now result }
{
    text_fault(net, initial, word)?;
    let sized = SizedNet { net: *net };
    Ok(text_length(&sized, word.len()))
}

// The case file at the front of the room, and its length; what lies past its end is as found. A refusal
// leaves the room as found.
pub fn write_case(
    net: &Net,
    initial: &[u16],
    word: &[u8],
    room: &mut [u8],
) -> Result<usize, Refusal>
    ensures { CaseWritten (lent net.now) initial.now word.now room.old result room.new }
{
    write_fault(net, initial, word, room.len())?;
    let sized = SizedNet { net: *net };
    Ok(file_out::put_file(&sized, initial, word, room))
}
