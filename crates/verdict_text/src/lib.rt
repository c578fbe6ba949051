// Inner: the verdict line that the program writes, made into a lent room.
#![tactic(auto)]

ghost use Rattle.std.specs.Prelude.{◌≡◌, [], ◌∷◌, ◌++◌, ◌+◌, ◌*◌, ◌≤◌, length, Result};
ghost use Rattle.ground.specs.Limits.{count_limit};
ghost use Rattle.file_put.specs.Put.{four, fours, line_text};
ghost use Rattle.file_put.specs.Sheet.{Spelled, Written};
ghost use Rattle.verdict_text.specs.Verdict.{bytes_of, verdict, answer_limit, WrittenBytes};
ghost use Rattle.verdict_text.specs.Walk.{Placed};

use file_put::Sheet;
use ground::COUNT_LIMIT;
use net::Cause;
use refusals::Refusal;
use replay::Replay;

// The most bytes of a verdict line: 81 00 and the letters fired are 12 digits, each of at most 64
// places has 8 more, and the line feed ends it.
pub const ANSWER_LIMIT: usize = 13 + 8 * COUNT_LIMIT;

// The tokens of each place, four bytes each.
fn put_marking(sheet: &mut Sheet, marking: &[u32])
    requires { sheet.old.at + 8 * length marking.now ≤ length sheet.old.room.now }
    ensures { Spelled sheet.old (fours marking.now) sheet.new }
{
    for tokens in marking {
        sheet.put_bytes(&tokens.to_be_bytes());
    }
}

// 81 00, the letters fired, and the marking left.
#[tactic(auto, using(file_put::proofs::Puts::fours_long), unfolding(file_put::specs::Put::four))]
fn write_fired(sheet: &mut Sheet, n: usize, marking: &[u32])
    requires { sheet.old.at + (13 + 8 * length marking.now) ≤ length sheet.old.room.now }
    ensures { Written sheet.old (verdict (Result.Ok (Replay.Fired n)) marking.now) sheet.new }
{
    sheet.put_bytes(&[0x81, 0]);
    sheet.put_four(n);
    put_marking(sheet, marking);
    sheet.put_feed();
}

// 81 and the cause, the letter's position, and the place.
#[tactic(auto, unfolding(file_put::specs::Put::four))]
fn write_blocked(sheet: &mut Sheet, i: usize, cause: u8, place: u8)
    requires { sheet.old.at + 15 ≤ length sheet.old.room.now }
    ensures { Written sheet.old (line_text (0x81 ∷ (cause ∷ (four i ++ (place ∷ []))))) sheet.new }
{
    sheet.put_bytes(&[0x81, cause]);
    sheet.put_four(i);
    sheet.put_byte(place);
    sheet.put_feed();
}

// A block's line, by its cause.
fn write_cause(sheet: &mut Sheet, i: usize, why: Cause)
    requires { (sheet.old.at + 15 ≤ length sheet.old.room.now) × (Placed (Result.Ok (Replay.Blocked i why))) }
    ensures { Written sheet.old (verdict (Result.Ok (Replay.Blocked i why)) []) sheet.new }
{
    match why {
        Cause::Short(place) => write_blocked(sheet, i, 1, place as u8),
        Cause::Over(place) => write_blocked(sheet, i, 2, place as u8),
    }
}

// 82, the refusal's number, and its line.
#[tactic(auto, unfolding(file_put::specs::Put::four))]
fn put_refused(sheet: &mut Sheet, why: Refusal)
    requires { sheet.old.at + 13 ≤ length sheet.old.room.now }
    ensures { Written sheet.old (verdict (Result.Err why) []) sheet.new }
{
    sheet.put_bytes(&[0x82, why.number]);
    sheet.put_four(why.at);
    sheet.put_feed();
}

// The line of an answer, by its case.
fn put_verdict(sheet: &mut Sheet, answer: Result<Replay, Refusal>, marking: &[u32])
    requires { (sheet.old.at + answer_limit ≤ length sheet.old.room.now) × (length marking.now ≤ count_limit) × (Placed answer) }
    ensures { Written sheet.old (verdict answer marking.now) sheet.new }
{
    match answer {
        Ok(Replay::Fired(n)) => write_fired(sheet, n, marking),
        Ok(Replay::Blocked(i, why)) => write_cause(sheet, i, why),
        Err(why) => put_refused(sheet, why),
    }
}

// The line of a refusal at the front of the room; answers its length.
pub fn write_refused(out: &mut [u8], why: Refusal) -> usize
    requires { 13 ≤ length out.old }
    ensures { WrittenBytes out.old (bytes_of (Result.Err why) []) result out.new }
{
    let mut sheet = Sheet { room: out, at: 0 };
    put_refused(&mut sheet, why);
    sheet.at
}

// The verdict line of an answer, with the marking left, at the front of the room; answers its length.
pub fn write_verdict(out: &mut [u8], answer: Result<Replay, Refusal>, marking: &[u32]) -> usize
    requires { (answer_limit ≤ length out.old) × (length marking.now ≤ count_limit) × (Placed answer) }
    ensures line { WrittenBytes out.old (bytes_of answer marking.now) result out.new }
    ensures few { result ≤ answer_limit }
{
    let mut sheet = Sheet { room: out, at: 0 };
    put_verdict(&mut sheet, answer, marking);
    sheet.at
}
