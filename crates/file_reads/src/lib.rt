// Inner: what one read of the input comes to. Its bytes are fed to the reading, and its count says whether there is
// more to read; no call of the system is made here, so that all of it is proved.
#![tactic(auto)]

ghost use Rattle.std.specs.Prelude.{◌≡◌};
ghost use Rattle.file_line.specs.Read.{rooms};
ghost use Rattle.file_line.specs.Walk.{Large};
ghost use Rattle.file_parts.specs.File.{both};
ghost use Rattle.file_parts.specs.Held.{abs, Sound};
ghost use Rattle.file_reads.specs.Reads.{read_as, state, failure_of, step_of};
ghost use Rattle.file_reads.specs.Walk.{part_by, input_of};

use file_line::Reading;
use file_parts::Held;
use ground::Weight;
use refusals::Refusal;

// Whether there is more to read.
#[derive(Clone, Copy)]
pub enum Input {
    More,
    Over,
    Failed,
}

// What was read so far.
#[derive(Clone, Copy)]
pub struct Fed {
    pub held: Held,
    pub input: Input,
}

// A read that a signal interrupted is made again; any other failure is one.
#[tactic(auto, unfolding(crate::specs::Reads::failure_of))]
fn after_failure(interrupted: bool) -> Input
    ensures { result ≡ failure_of interrupted }
{
    if interrupted {
        Input::More
    } else {
        Input::Failed
    }
}

// After a refusal nothing more is read, since nothing after it can change the answer.
fn after_part(reading: &Result<Reading, Refusal>) -> Input
    ensures { result ≡ part_by reading.now }
{
    match reading {
        Ok(_) => Input::More,
        Err(_) => Input::Over,
    }
}

// What a read leaves, by the sign of its count; the reading is what there is after its bytes.
fn input_after(got: isize, interrupted: bool, reading: &Result<Reading, Refusal>) -> Input
    ensures { result ≡ input_of got interrupted (part_by reading.now) }
{
    if got < 0 {
        after_failure(interrupted)
    } else if 0 < got {
        after_part(reading)
    } else {
        Input::Over
    }
}

// One read more: got is what it answered, interrupted whether a signal broke it off, and buf the buffer after it.
pub fn take_read(
    h: Held,
    got: isize,
    interrupted: bool,
    buf: &[u8],
    caps: &mut [u16],
    marks: &mut [u8],
    initial: &mut [u16],
    pre: &mut [Weight],
    post: &mut [Weight],
    word: &mut [u8],
) -> Fed
    requires { (Sound h) × (Large (rooms caps.old marks.old initial.old pre.old post.old word.old)) }
    ensures value { state (both (abs result.held) (rooms caps.new marks.new initial.new pre.new post.new word.new)) result.input
        ≡ step_of (state (both (abs h) (rooms caps.old marks.old initial.old pre.old post.old word.old)) Input.More) (read_as got interrupted buf.now) }
    ensures sound { Sound result.held }
{
    let n = io::count(got, buf);
    let held = file_parts::read_part(h, &buf[..n], caps, marks, initial, pre, post, word);
    Fed {
        held,
        input: input_after(got, interrupted, &held.reading),
    }
}
