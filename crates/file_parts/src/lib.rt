// Inner: a case file by parts. Each line goes through one buffer, with its length beside it: it is filled from the
// part at hand, and from the next part where a part cuts the line off; at the line feed the line is read and the buffer cleared.
#![tactic(auto)]

ghost use Rattle.std.specs.Prelude.{◌≡◌, Ok, [], ◌+◌, ◌≤◌, length, take, drop};
ghost use Rattle.std.proofs.lemmas.List.Edits.{sets};
ghost use Rattle.file_digits.specs.Frame.{line_feed};
ghost use Rattle.file_line.specs.Read.{rooms};
ghost use Rattle.file_line.specs.Walk.{Good, GoodTook, Large};
ghost use Rattle.file_parts.specs.File.{going, both, ended, feed_of, feed_all, finish_of, case_of, line_len};
ghost use Rattle.file_parts.specs.Held.{GoodCase, abs, Sound, hold_of};

use file_digits::LINE_LIMIT;
use file_line::Reading;
use ground::Weight;
use refusals::{Refusal, refuse};

// A reading between two parts: the state after the lines so far, or their refusal, and the bytes of the
// line that has begun.
#[derive(Clone, Copy)]
pub struct Held {
    pub reading: Result<Reading, Refusal>,
    pub len: usize,
    pub line: [u8; LINE_LIMIT],
}

// Where the line that starts at number at ends: at its line feed, or at the end of the part.
fn line_end(part: &[u8], at: usize) -> usize
    requires { at ≤ length part.now }
    ensures { result ≡ at + line_len (drop at part.now) }
{
    for e in at..part.len() {
        if part[e] == b'\n' {
            return e;
        }
    }
    part.len()
}

// The end of a file, after whole lines.
fn finish(s: Reading) -> Result<Reading, Refusal>
    requires { Good s }
    ensures value { result ≡ finish_of s }
    ensures good { GoodCase result }
{
    refuse(s.phase != 5, 12, s.line + 1)?;
    Ok(s)
}

// What lines came to, with no byte of the next.
fn ended(reading: Result<Reading, Refusal>) -> Held
    requires { GoodTook reading }
    ensures value { abs result ≡ ended reading }
    ensures sound { (Sound result) × (result.len ≡ 0) × (result.reading ≡ reading) }
{
    let len = 0;
    Held {
        reading,
        len,
        line: [0; LINE_LIMIT],
    }
}

// A state with an empty line.
pub fn cleared(s: Reading) -> Held
    requires { Good s }
    ensures value { abs result ≡ going s [] }
    ensures sound { (Sound result) × (result.len ≡ 0) }
    ensures empty { result.reading ≡ Ok s }
{
    ended(Ok(s))
}

// A piece of a line into the buffer at number at.
fn fill(line: &mut [u8], at: usize, piece: &[u8])
    requires { at + length piece.now ≤ length line.old }
    ensures { line.new ≡ sets line.old at piece.now }
{
    let end = at + piece.len();
    line[at..end].copy_from_slice(piece);
}

// The state s, which is the held one, with a piece of a line more; a line of too many digits is refused.
fn hold(h: &Held, s: Reading, piece: &[u8]) -> Held
    requires { (Sound h.now) × (h.now.reading ≡ Ok s) }
    ensures value { abs result ≡ hold_of s (take h.now.len h.now.line) piece.now }
    ensures sound { Sound result }
{
    let count = piece.len();
    if LINE_LIMIT - h.len < count {
        return ended(Err(Refusal {
            number: 11,
            at: s.line + 1,
        }));
    }
    let mut line = h.line;
    fill(&mut line, h.len, piece);
    Held {
        reading: Ok(s),
        len: h.len + count,
        line,
    }
}

// The held line, which is whole, is read; after a refusal nothing is.
fn end_line(
    h: Held,
    caps: &mut [u16],
    marks: &mut [u8],
    initial: &mut [u16],
    pre: &mut [Weight],
    post: &mut [Weight],
    word: &mut [u8],
) -> Held
    requires { (Sound h) × (Large (rooms caps.old marks.old initial.old pre.old post.old word.old)) }
    ensures value { both (abs result) (rooms caps.new marks.new initial.new pre.new post.new word.new)
        ≡ feed_of (both (abs h) (rooms caps.old marks.old initial.old pre.old post.old word.old)) line_feed }
    ensures sound { Sound result }
{
    match h.reading {
        Ok(s) => {
            let n = h.len;
            ended(file_line::read_line(s, &h.line[..n], caps, marks, initial, pre, post, word))
        }
        Err(_) => h,
    }
}

// A line of the part, from number at to its line feed at e, or to the part's end: it is held, and read if it is whole.
fn feed_line(
    h: Held,
    part: &[u8],
    at: usize,
    e: usize,
    caps: &mut [u16],
    marks: &mut [u8],
    initial: &mut [u16],
    pre: &mut [Weight],
    post: &mut [Weight],
    word: &mut [u8],
) -> Held
    requires { (Sound h) × (at ≤ length part.now) × (e ≡ at + line_len (drop at part.now)) × (Large (rooms caps.old marks.old initial.old pre.old post.old word.old)) }
    ensures value { feed_all (both (abs result) (rooms caps.new marks.new initial.new pre.new post.new word.new)) (drop (e + 1) part.now)
        ≡ feed_all (both (abs h) (rooms caps.old marks.old initial.old pre.old post.old word.old)) (drop at part.now) }
    ensures sound { Sound result }
{
    match h.reading {
        Ok(s) => {
            let r = hold(&h, s, &part[at..e]);
            if e == part.len() {
                r
            } else {
                end_line(r, caps, marks, initial, pre, post, word)
            }
        }
        Err(_) => h,
    }
}

// One part of a file more, line by line, until its end or a refusal.
pub fn read_part(
    h: Held,
    part: &[u8],
    caps: &mut [u16],
    marks: &mut [u8],
    initial: &mut [u16],
    pre: &mut [Weight],
    post: &mut [Weight],
    word: &mut [u8],
) -> Held
    requires { (Sound h) × (Large (rooms caps.old marks.old initial.old pre.old post.old word.old)) }
    ensures value { both (abs result) (rooms caps.new marks.new initial.new pre.new post.new word.new)
        ≡ feed_all (both (abs h) (rooms caps.old marks.old initial.old pre.old post.old word.old)) part.now }
    ensures sound { Sound result }
{
    let mut r = h;
    let mut at: usize = 0;
    while at < part.len() && r.reading.is_ok() {
        let e = line_end(part, at);
        r = feed_line(r, part, at, e, caps, marks, initial, pre, post, word);
        at = e + 1;
    }
    r
}

// The end of a file.
pub fn finish_held(h: Held) -> Result<Reading, Refusal>
    requires { Sound h }
    ensures value { result ≡ case_of (abs h) }
    ensures good { GoodCase result }
{
    let s = h.reading?;
    refuse(h.len != 0, 11, s.line + 1)?;
    finish(s)
}
