// The program of `./kaunorpi --rewrite`: a case file on standard input; the file that the writer makes of it
// on standard output. A refused file has no other; its line, 82, is written on standard error. Where a read
// fails nothing is written, and the failure is told on standard error.
#![tactic(auto)]

ghost use Rattle.std.specs.Prelude.{◌≤◌, length, OnOk, take};
ghost use Rattle.std.specs.Io.KnownBytes.{Appends};
ghost use Rattle.file_out.specs.Length.{file_limit};
ghost use Rattle.file_parts.specs.File.{case_of};
ghost use Rattle.file_parts.specs.Held.{abs, Sound};
ghost use Rattle.verdict_text.specs.Verdict.{answer_limit};
ghost use Rattle.file_again.specs.Again.{again_for};
ghost use Rattle.rewrite.specs.Made.{refusal_bytes, Line, Shown, Made, Given, Answered};

use file_input::{Failure, Source};
use file_line::{Reading, Rooms};
use file_out::FILE_LIMIT;
use file_parts::Held;
use file_reads::Input;
use refusals::Refusal;
use std::io::{Read, Write};
use std::process::ExitCode;
use verdict_text::ANSWER_LIMIT;

// The first n bytes of the room are written to standard output.
fn give<W: Write>(output: &mut W, out: &[u8], n: usize) -> Result<(), Failure>
    requires { n ≤ length out.now }
    ensures { OnOk result (Appends (W.contents output.old) (W.contents output.new) (take n out.now)) }
{
    output.write_all(&out[..n]).map_err(Failure::Output)
}

// A refusal's line is made in the room told, and written to standard error. If it cannot be written there is nowhere
// left to say so, and the program ends as it would have.
fn tell<E: Write>(errors: &mut E, why: Refusal, told: &mut [u8])
    requires { answer_limit ≤ length told.old }
    ensures { Line told.old (refusal_bytes why.number why.at) told.new }
{
    let n = verdict_text::write_refused(told, why);
    let _ = errors.write_all(&told[..n]);
}

// The file is made in the room out, and given; a refusal is told.
fn show<W: Write, E: Write>(
    output: &mut W,
    errors: &mut E,
    h: Held,
    rooms: &Rooms,
    out: &mut [u8],
    told: &mut [u8],
) -> Result<(), Failure>
    requires { (Sound h) × (answer_limit ≤ length told.old) }
    ensures shown { Shown (again_for (case_of (abs h)) rooms.now out.old) out.new told.old told.new }
    ensures given { OnOk result (Given (again_for (case_of (abs h)) rooms.now out.old) (W.contents output.old) (W.contents output.new)) }
{
    let again = file_again::rewrite_held(
        h,
        &rooms.caps,
        &rooms.marks,
        &rooms.initial,
        &rooms.pre,
        &rooms.post,
        &rooms.word,
        out,
    );
    match again {
        Ok(n) => give(output, out, n),
        Err(why) => {
            tell(errors, why, told);
            Ok(())
        }
    }
}

// The whole program, over rooms for any file, and rooms that are large enough for what is written of it.
fn answer<R: Read + Drop, W: Write, E: Write>(
    source: &mut Source<R>,
    output: &mut W,
    errors: &mut E,
    rooms: &mut Rooms,
    out: &mut [u8],
    told: &mut [u8],
) -> Result<(), Failure>
    requires { (file_limit ≤ length out.old) × (answer_limit ≤ length told.old) }
    ensures made { Made rooms.old out.old out.new told.old told.new }
    ensures ok { OnOk result (Answered rooms.old out.old out.new told.old told.new (W.contents output.old) (W.contents output.new)) }
{
    let s = Reading::new();
    let h = file_parts::cleared(s);
    let f = file_input::read_all(
        source,
        h,
        &mut rooms.caps,
        &mut rooms.marks,
        &mut rooms.initial,
        &mut rooms.pre,
        &mut rooms.post,
        &mut rooms.word,
    );
    match f.input {
        Input::Failed => Err(source.failure()),
        _ => show(output, errors, f.held, rooms, out, told),
    }
}

// Makes the rooms of the largest sizes; the rest is done in rooms that are lent. A failure is told, and is the exit status.
fn main(rt: HostRuntime) -> ExitCode {
    let mut rooms = Rooms::new();
    let mut out = [0u8; FILE_LIMIT];
    let mut told = [0u8; ANSWER_LIMIT];
    let ended = answer(
        &mut Source::new(rt.stdin()),
        &mut rt.stdout(),
        &mut rt.stderr(),
        &mut rooms,
        &mut out,
        &mut told,
    );
    file_input::status_of(&rt, ended)
}
