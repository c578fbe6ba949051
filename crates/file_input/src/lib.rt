// Inner: the reads of the input, by std's `Read`. What each comes to is decided in file_reads: reading stops at
// the file's end, at the first refusal, or at a read that fails.
#![tactic(auto)]

mod source;

ghost use Rattle.file_line.specs.Read.{rooms};
ghost use Rattle.file_line.specs.Walk.{Large};
ghost use Rattle.file_parts.specs.File.{both};
ghost use Rattle.file_parts.specs.Held.{abs, Sound};
ghost use Rattle.file_reads.specs.Reads.{state, InputRead};
ghost use Rattle.file_reads.specs.Walk.{OneRead};

use file_parts::Held;
use file_reads::{Fed, Input};
use ground::Weight;
pub use source::{Failure, Source, status_of};
use std::io::Read;

// As many bytes as one read asks for: a loop that moves much data would spend its time on smaller reads.
const READ_SIZE: usize = 65536;

// One read, and what it comes to. That it is one of standard input, where the source is, is all that is trusted here.
fn read_some<R: Read + Drop>(
    source: &mut Source<R>,
    h: Held,
    caps: &mut [u16],
    marks: &mut [u8],
    initial: &mut [u16],
    pre: &mut [Weight],
    post: &mut [Weight],
    word: &mut [u8],
) -> Fed
    requires { (Sound h) × (Large (rooms caps.old marks.old initial.old pre.old post.old word.old)) }
    ensures sound { Sound result.held }
    ensures step { OneRead (state (both (abs h) (rooms caps.old marks.old initial.old pre.old post.old word.old)) Input.More)
        (state (both (abs result.held) (rooms caps.new marks.new initial.new pre.new post.new word.new)) result.input) }
{
    let mut buf = [0u8; READ_SIZE];
    let read = source.read_once(&mut buf);
    file_reads::take_read(
        h,
        read.got,
        read.interrupted,
        &buf,
        caps,
        marks,
        initial,
        pre,
        post,
        word,
    )
}

// Every read of the source, up to the first that leaves no more. The loop has as many turns as no run
// uses up, since nothing says that an input ends; if one did, that would be a failure.
pub fn read_all<R: Read + Drop>(
    source: &mut Source<R>,
    h: Held,
    caps: &mut [u16],
    marks: &mut [u8],
    initial: &mut [u16],
    pre: &mut [Weight],
    post: &mut [Weight],
    word: &mut [u8],
) -> Fed
    requires { (Sound h) × (Large (rooms caps.old marks.old initial.old pre.old post.old word.old)) }
    ensures sound { Sound result.held }
    ensures reads { InputRead (state (both (abs h) (rooms caps.old marks.old initial.old pre.old post.old word.old)) Input.More)
        (state (both (abs result.held) (rooms caps.new marks.new initial.new pre.new post.new word.new)) result.input) }
{
    let mut held = h;
    for _ in 0..u64::MAX {
        let fed = read_some(source, held, caps, marks, initial, pre, post, word);
        match fed.input {
            Input::More => held = fed.held,
            _ => return fed,
        }
    }
    Fed {
        held,
        input: Input::Failed,
    }
}
