// A call that failed on one of a program's streams, and what is said on standard error. Where that fails too, nothing more can be said.
ghost use Rattle.std.specs.Prelude.{◌≡◌};

use std::fmt::InlineText;
use std::io::Print;
use std::{fmt, io};

// What a program reads and writes.
#[derive(Clone, Copy, Debug, PartialEq, Eq)]
pub enum Stream {
    Input,
    Output,
    Apart,
}

impl fmt::Display for Stream {
    fn fmt<W: fmt::Write>(&self, f: &mut fmt::Formatter<W>) -> fmt::Result {
        f.write_str(match self {
            Stream::Input => "standard input",
            Stream::Output => "standard output",
            Stream::Apart => "temporary file",
        })
    }
}

// A call that failed: on which stream, and why.
#[derive(Clone, Copy, Debug)]
pub struct Failed {
    pub stream: Stream,
    pub error: io::Error,
}

// The system's words for it, without the number that the library puts behind them.
impl fmt::Display for Failed {
    fn fmt<W: fmt::Write>(&self, f: &mut fmt::Formatter<W>) -> fmt::Result {
        let text = InlineText::<128>::of(self.error);
        let all = text.as_str();
        let words = match all.rsplit_once(" (os error ") {
            Some((words, _)) => words,
            None => all,
        };
        write!(f, "{}: {words}", self.stream)
    }
}

// A read that failed, and how many bytes stood at the front of what was lent when it did.
#[derive(Clone, Copy, Debug)]
pub struct ReadFailed {
    pub count: usize,
    pub failed: Failed,
}

impl From<ReadFailed> for Failed {
    ghost from_gives = { λ e failed. failed ≡ e.failed };

    fn from(e: ReadFailed) -> Failed {
        e.failed
    }
}

fn put(rt: HostRuntime, bytes: &[u8]) {
    let _ = rt.stderr().write_all(bytes);
}

// Writes a line to standard error, behind who says it.
pub fn tell(rt: HostRuntime, who: &[u8], line: &[u8]) {
    put(rt, who);
    put(rt, line);
}

// Says why a program stopped, behind its name.
pub fn report(rt: HostRuntime, name: &str, failed: Failed) {
    let _ = rt.stderr().println(format_args!("{name}: {failed}"));
}
