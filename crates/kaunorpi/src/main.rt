// The program: a case file on standard input; one verdict line on standard output. Where a read
// fails the file has no end that is known, so no line is written, and the failure is told on
// standard error.
#![tactic(auto)]

ghost use Rattle.std.specs.Prelude.{◌≤◌, length, OnOk};
ghost use Rattle.std.specs.Io.KnownBytes.{Appends};
ghost use Rattle.file_put.specs.Put.{line_text};
ghost use Rattle.file_parts.specs.File.{case_of};
ghost use Rattle.file_parts.specs.Held.{abs, Sound};
ghost use Rattle.verdict_text.specs.Verdict.{answer_limit};
ghost use Rattle.verdict_line.specs.Answer.{answer_for};
ghost use Rattle.kaunorpi.specs.Made.{Shown, Made, Answered};

use file_input::{Failure, Source};
use file_line::{Reading, Rooms};
use file_parts::Held;
use file_reads::Input;
use std::io::{Read, Write};
use std::process::ExitCode;
use verdict_text::ANSWER_LIMIT;

// The line is made in the room out, and written. Where the write fails the line stands in the room all the same.
fn show<W: Write>(output: &mut W, h: Held, rooms: &Rooms, out: &mut [u8]) -> Result<(), Failure>
    requires { (Sound h) × (answer_limit ≤ length out.old) }
    ensures shown { Shown out.old (answer_for (case_of (abs h)) rooms.now) out.new }
    ensures written { OnOk result (Appends (W.contents output.old) (W.contents output.new) (line_text (answer_for (case_of (abs h)) rooms.now))) }
{
    let n = verdict_line::answer_line(
        h,
        &rooms.caps,
        &rooms.marks,
        &rooms.initial,
        &rooms.pre,
        &rooms.post,
        &rooms.word,
        out,
    );
    output.write_all(&out[..n]).map_err(Failure::Output)
}

// The whole program, over rooms for any file and a room that is large enough for any line.
fn answer<R: Read + Drop, W: Write>(
    source: &mut Source<R>,
    output: &mut W,
    rooms: &mut Rooms,
    out: &mut [u8],
) -> Result<(), Failure>
    requires { answer_limit ≤ length out.old }
    ensures made { Made rooms.old out.old out.new }
    ensures ok { OnOk result (Answered rooms.old out.old out.new (W.contents output.old) (W.contents output.new)) }
{
    let s = Reading::new();
    let h = file_parts::cleared(s);
    let f = file_input::read_all(
        source,
        h,
        &mut rooms.caps,
        &mut rooms.marks,
        &mut rooms.initial,
        &mut rooms.pre,
        &mut rooms.post,
        &mut rooms.word,
    );
    match f.input {
        Input::Failed => Err(source.failure()),
        _ => show(output, f.held, rooms, out),
    }
}

// Makes the rooms of the largest sizes; the rest is done in rooms that are lent. A failure is told, and is the exit status.
fn main(rt: HostRuntime) -> ExitCode {
    let mut rooms = Rooms::new();
    let mut out = [0u8; ANSWER_LIMIT];
    let ended = answer(
        &mut Source::new(rt.stdin()),
        &mut rt.stdout(),
        &mut rooms,
        &mut out,
    );
    file_input::status_of(&rt, ended)
}
