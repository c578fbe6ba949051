// Inner: the line that answers a case file, made from what the file has come to: a refusal's, or the
// verdict of the replay of what was read.
#![tactic(auto)]

ghost use Rattle.std.specs.Prelude.{◌≡◌, ◌≤◌, Ok, length};
ghost use Rattle.file_line.specs.Read.{rooms};
ghost use Rattle.file_line.specs.Walk.{Good, Large};
ghost use Rattle.file_parts.specs.File.{case_of};
ghost use Rattle.file_parts.specs.Held.{abs, Sound};
ghost use Rattle.verdict_text.specs.Verdict.{answer_limit, WrittenBytes};
ghost use Rattle.verdict_line.specs.Answer.{answer_for};

use file_line::{Reading, net_at};
use file_parts::Held;
use ground::{COUNT_LIMIT, Weight};

// The verdict line of the replay of what was read; the room has a number for each place.
fn play_line(
    s: Reading,
    caps: &[u16],
    marks: &[u8],
    initial: &[u16],
    pre: &[Weight],
    post: &[Weight],
    word: &[u8],
    room: &mut [u32],
    out: &mut [u8],
) -> usize
    requires { (Good s) × (Large (rooms caps.now marks.now initial.now pre.now post.now word.now)) × (length room.old ≡ s.places) × (answer_limit ≤ length out.old) }
    ensures line { WrittenBytes out.old (answer_for (Ok s) (rooms caps.now marks.now initial.now pre.now post.now word.now)) result out.new }
    ensures few { result ≤ answer_limit }
{
    let net = net_at(s, caps, marks, pre, post);
    let answer = replay::replay_word(&net, &initial[..s.places], &word[..s.letters], room);
    verdict_text::write_verdict(out, answer, room)
}

// The line of a whole case.
fn whole_line(
    s: Reading,
    caps: &[u16],
    marks: &[u8],
    initial: &[u16],
    pre: &[Weight],
    post: &[Weight],
    word: &[u8],
    out: &mut [u8],
) -> usize
    requires { (Good s) × (Large (rooms caps.now marks.now initial.now pre.now post.now word.now)) × (answer_limit ≤ length out.old) }
    ensures line { WrittenBytes out.old (answer_for (Ok s) (rooms caps.now marks.now initial.now pre.now post.now word.now)) result out.new }
    ensures few { result ≤ answer_limit }
{
    let mut room = [0; COUNT_LIMIT];
    let room = &mut room[..s.places];
    play_line(s, caps, marks, initial, pre, post, word, room, out)
}

// The line that answers a file, at its end, at the front of the room out; answers its length.
pub fn answer_line(
    h: Held,
    caps: &[u16],
    marks: &[u8],
    initial: &[u16],
    pre: &[Weight],
    post: &[Weight],
    word: &[u8],
    out: &mut [u8],
) -> usize
    requires { (Sound h) × (Large (rooms caps.now marks.now initial.now pre.now post.now word.now)) × (answer_limit ≤ length out.old) }
    ensures line { WrittenBytes out.old (answer_for (case_of (abs h)) (rooms caps.now marks.now initial.now pre.now post.now word.now)) result out.new }
    ensures few { result ≤ answer_limit }
{
    match file_parts::finish_held(h) {
        Ok(s) => whole_line(s, caps, marks, initial, pre, post, word, out),
        Err(why) => verdict_text::write_refused(out, why),
    }
}
