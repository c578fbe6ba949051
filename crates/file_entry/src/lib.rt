// A whole case file into lent rooms: the net, its initial marking and the word, or a refusal with its
// line. The counts are not known before the file is read, so the rooms have the largest sizes.
#![tactic(auto)]

ghost use Rattle.std.specs.Prelude.{◌≡◌, [], ◌≤◌, length};
ghost use Rattle.std.proofs.lemmas.List.Edits.{sets};
ghost use Rattle.file_line.specs.Read.{fresh, rooms};
ghost use Rattle.file_line.specs.Walk.{Good, Large};
ghost use Rattle.file_parts.specs.File.{going, both, feed_all};
ghost use Rattle.file_parts.specs.Held.{GoodCase};
ghost use Rattle.file_entry.specs.Entry.{came, largest_of, laid, filled_of, CaseRead};
ghost use Rattle.file_entry.specs.Walk.{Comes};

use file_line::{CELL_LIMIT, Reading, Rooms};
use ground::{COUNT_LIMIT, WORD_LIMIT, Weight};
use refusals::{Refusal, refuse};

// A case file that was read: its places, transitions and letters. A file that is not is refused, with
// document 01's number and the line (position 0 where a room has another length).
#[derive(Clone, Copy)]
pub struct CaseFile {
    pub places: usize,
    pub transitions: usize,
    pub letters: usize,
}

// Whether rooms of these lengths are exactly the largest.
#[tactic(auto, unfolding(crate::specs::Entry::largest_of))]
fn is_largest(
    caps: usize,
    marks: usize,
    initial: usize,
    pre: usize,
    post: usize,
    word: usize,
) -> bool
    ensures { result ≡ largest_of caps marks initial pre post word }
{
    caps == COUNT_LIMIT
        && marks == COUNT_LIMIT
        && initial == COUNT_LIMIT
        && pre == CELL_LIMIT
        && post == CELL_LIMIT
        && word == WORD_LIMIT
}

// What a file comes to, read into rooms: it is one part.
fn read_file(file: &[u8], rooms: &mut Rooms) -> Result<Reading, Refusal>
    ensures value { Comes (feed_all (both (going fresh []) rooms.old) file.now) result rooms.new }
    ensures good { GoodCase result }
{
    let s = Reading::new();
    let h = file_parts::cleared(s);
    let r = file_parts::read_part(
        h,
        file,
        &mut rooms.caps,
        &mut rooms.marks,
        &mut rooms.initial,
        &mut rooms.pre,
        &mut rooms.post,
        &mut rooms.word,
    );
    file_parts::finish_held(r)
}

// A list to the front of a room.
fn lay<T: Copy>(room: &mut [T], list: &[T])
    requires { length list.now ≤ length room.old }
    ensures { room.new ≡ sets room.old 0 list.now }
{
    let n = list.len();
    room[..n].copy_from_slice(list);
}

// The net's own entries and the word's letters, of what was read, to the front of the lent rooms.
fn lay_out(
    s: Reading,
    read: &Rooms,
    caps: &mut [u16],
    marks: &mut [u8],
    initial: &mut [u16],
    pre: &mut [Weight],
    post: &mut [Weight],
    word: &mut [u8],
)
    requires { (Good s) × (Large (rooms caps.old marks.old initial.old pre.old post.old word.old)) }
    ensures { rooms caps.new marks.new initial.new pre.new post.new word.new
        ≡ laid s read.now (rooms caps.old marks.old initial.old pre.old post.old word.old) }
{
    let p = s.places;
    let cells = s.transitions * p;
    let n = s.letters;
    lay(caps, &read.caps[..p]);
    lay(marks, &read.marks[..p]);
    lay(initial, &read.initial[..p]);
    lay(pre, &read.pre[..cells]);
    lay(post, &read.post[..cells]);
    lay(word, &read.word[..n]);
}

// A file into rooms of the right lengths: it is read into rooms of our own, so that nothing is
// stored in a lent one before the whole file is judged.
fn read_into(
    file: &[u8],
    caps: &mut [u16],
    marks: &mut [u8],
    initial: &mut [u16],
    pre: &mut [Weight],
    post: &mut [Weight],
    word: &mut [u8],
) -> Result<CaseFile, Refusal>
    requires { Large (rooms caps.old marks.old initial.old pre.old post.old word.old) }
    ensures { came result (rooms caps.new marks.new initial.new pre.new post.new word.new)
        ≡ filled_of file.now (rooms caps.old marks.old initial.old pre.old post.old word.old) }
{
    let mut read = Rooms::new();
    let s = read_file(file, &mut read)?;
    lay_out(s, &read, caps, marks, initial, pre, post, word);
    Ok(CaseFile {
        places: s.places,
        transitions: s.transitions,
        letters: s.letters,
    })
}

// A file of bytes into rooms of 64, 64, 64, 4,096, 4,096 and 65,535 entries: the net's own
// capacities, marks (0 or 1), tokens, Pre, Post and letters stand at their fronts, and the rest is as
// found; so is all after a refusal.
pub fn read_case(
    file: &[u8],
    caps: &mut [u16],
    marks: &mut [u8],
    initial: &mut [u16],
    pre: &mut [Weight],
    post: &mut [Weight],
    word: &mut [u8],
) -> Result<CaseFile, Refusal>
    ensures { CaseRead file.now (rooms caps.old marks.old initial.old pre.old post.old word.old) result
        (rooms caps.new marks.new initial.new pre.new post.new word.new) }
{
    let fits = is_largest(
        caps.len(),
        marks.len(),
        initial.len(),
        pre.len(),
        post.len(),
        word.len(),
    );
    refuse(!fits, 2, 0)?;
    read_into(file, caps, marks, initial, pre, post, word)
}
