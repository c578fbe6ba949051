// Inner: a case file written back, made from what the file has come to: the file that the writer makes of
// what was read; or the refusal, as the line of the verdict has it.
#![tactic(auto)]

ghost use Rattle.std.specs.Prelude.{Ok};
ghost use Rattle.file_line.specs.Read.{rooms};
ghost use Rattle.file_line.specs.Walk.{Good, Large};
ghost use Rattle.file_parts.specs.File.{case_of};
ghost use Rattle.file_parts.specs.Held.{abs, Sound};
ghost use Rattle.file_again.specs.Again.{WrittenAgain};

use file_line::{Reading, net_at};
use file_parts::Held;
use ground::Weight;
use refusals::Refusal;

// A whole case: what the rooms hold at their fronts is written.
fn write_whole(
    s: Reading,
    caps: &[u16],
    marks: &[u8],
    initial: &[u16],
    pre: &[Weight],
    post: &[Weight],
    word: &[u8],
    out: &mut [u8],
) -> Result<usize, Refusal>
    requires { (Good s) × (Large (rooms caps.now marks.now initial.now pre.now post.now word.now)) }
    ensures { WrittenAgain (Ok s) (rooms caps.now marks.now initial.now pre.now post.now word.now) out.old result out.new }
{
    let net = net_at(s, caps, marks, pre, post);
    file_write::write_case(&net, &initial[..s.places], &word[..s.letters], out)
}

// A file at its end, written back at the front of the room out; a refused file leaves the room as found.
pub fn rewrite_held(
    h: Held,
    caps: &[u16],
    marks: &[u8],
    initial: &[u16],
    pre: &[Weight],
    post: &[Weight],
    word: &[u8],
    out: &mut [u8],
) -> Result<usize, Refusal>
    requires { (Sound h) × (Large (rooms caps.now marks.now initial.now pre.now post.now word.now)) }
    ensures { WrittenAgain (case_of (abs h)) (rooms caps.now marks.now initial.now pre.now post.now word.now) out.old result out.new }
{
    let s = file_parts::finish_held(h)?;
    write_whole(s, caps, marks, initial, pre, post, word, out)
}
