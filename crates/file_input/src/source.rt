// The source of a case file, and why a program that reads one may end without its line.
ghost use Rattle.std.specs.Prelude.{◌≡◌, ◌≤◌, ◌↔◌, ℕ, length, take, None, IfOk, IfErr, MatchOption, MatchResult, IsTrue, pos, negsuc};
ghost use Rattle.std.specs.Io.KnownBytes.{Consumes, Keeps, IsAtEnd};
ghost use Rattle.file_input.specs.Blame.{BlamesInput};
ghost use Rattle.std.specs.IoError.{error_kind};
ghost use Rattle.std.specs.Process.{exit_status};
ghost use Rattle.ground.specs.Parts.{up};

use std::io::{ErrorKind, Read};
use std::process::ExitCode;
use std::{fmt, io};

// What a read answered: how many bytes it brought, -1 where it failed, and whether a signal broke it off.
#[derive(Clone, Copy)]
pub(crate) struct Answered {
    pub(crate) got: isize,
    pub(crate) interrupted: bool,
}

// A reader, and the error of its last read, so that a program can say why its input failed.
#[derive(Drop)]
pub struct Source<R: Read + Drop> {
    input: R,
    failure: Option<io::Error>,
}

// What kept a program from its end: a read of its input that failed, or a write of its output.
#[derive(Clone, Copy, Debug)]
pub enum Failure {
    Input(io::Error),
    Output(io::Error),
}

impl fmt::Display for Failure {
    fn fmt<W: fmt::Write>(&self, f: &mut fmt::Formatter<W>) -> fmt::Result {
        match self {
            Failure::Input(e) => write!(f, "standard input: {e}"),
            Failure::Output(e) => write!(f, "standard output: {e}"),
        }
    }
}

// Tells a failure on standard error, and answers the exit status of a program that ended so.
pub fn status_of<R: Eprint + AllocGlobal>(rt: &R, ended: Result<(), Failure>) -> ExitCode
    ensures { MatchResult ended (λ _. exit_status result ≡ 0) (λ _. exit_status result ≡ 1) }
{
    match ended {
        Ok(()) => ExitCode::SUCCESS,
        Err(failure) => {
            // If this line does not come out either, the exit status alone says it.
            let _ = tell(rt, failure);
            ExitCode::FAILURE
        }
    }
}

// The failure in the system's words: what std adds to them, the error's number, is left out.
fn tell<R: Eprint + AllocGlobal>(rt: &R, failure: Failure) -> io::Result<()> {
    let text = format!(in rt.alloc(); "{failure}")?;
    let words = text
        .split_once(" (os error ")
        .map_or(text.as_str(), |(words, _)| words);
    eprintln!(rt; "kaunorpi: {words}")
}

// A read's count by its sign, as the reading of case files is handed it.
fn count_of(read: &io::Result<usize>) -> Answered
    requires { IfOk read.now (λ n. n ≤ 65536) }
    ensures count { MatchResult read.now (λ n. result.got ≡ pos n) (λ _. result.got ≡ negsuc 0) }
    ensures signal { IfErr read.now (λ e. IsTrue result.interrupted ↔ error_kind e ≡ ErrorKind.Interrupted) }
{
    match read {
        Ok(n) => Answered {
            got: *n as isize,
            interrupted: false,
        },
        Err(e) => Answered {
            got: -1,
            interrupted: e.kind() == ErrorKind::Interrupted,
        },
    }
}

impl<R: Read + Drop> Source<R> {
    pub fn new(input: R) -> Source<R>
        ensures { (result.input ≡ input) × (result.failure ≡ None) }
    {
        Source {
            input,
            failure: None,
        }
    }

    // Why the input failed: by its last read, or, where that brought bytes, by having no end.
    pub fn failure(&self) -> Failure
        ensures { MatchOption self.now.failure (BlamesInput result) (λ e. result ≡ Failure.Input e) }
    {
        match self.failure {
            Some(e) => Failure::Input(e),
            None => Failure::Input(io::Error::other("it has no end")),
        }
    }

    // One read, whose error is kept. Without one as many bytes as are counted came from the input, and none only at its
    // end; with one none did, and the count is -1.
    pub(crate) fn read_once(&mut self, buf: &mut [u8; 65536]) -> Answered
        ensures bound { up result.got ≤ length buf.new }
        ensures count { MatchOption self.new.failure (result.got ≡ pos (up result.got)) (λ _. result.got ≡ negsuc 0) }
        ensures signal { MatchOption self.new.failure (Unit {0}) (λ e. IsTrue result.interrupted ↔ error_kind e ≡ ErrorKind.Interrupted) }
        ensures brought { MatchOption self.new.failure
            (Consumes (R.remaining self.old.input) (R.remaining self.new.input) (take (up result.got) buf.new))
            (λ _. Keeps (R.remaining self.old.input) (R.remaining self.new.input)) }
        ensures end { MatchOption self.new.failure
            (result.got ≡ pos 0 → IsAtEnd (R.remaining self.new.input))
            (λ _. Unit {0}) }
    {
        let read = self.input.read(buf);
        let a = count_of(&read);
        self.failure = read.err();
        a
    }
}
