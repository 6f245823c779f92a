// Standard input and output of the programs. A call that fails is told apart from one that moved fewer bytes: it is an error, with which a
// program stops, and which its `main` says in one line on standard error.
//
// The functions take the runtime itself: the reader that a bound `Input` gives has a buffer, and reads further than it is asked, while the
// place where standard input stands counts (`twice`).
#![tactic(auto)]

mod failures;
mod places;
mod sized;
mod source;

ghost use Rattle.std.specs.Prelude.{◌≡◌, ◌<◌, min, length, IfOk, IfErr, IsOk};
ghost use Rattle.streams.specs.Fronts.{ReadsBehind, Keeps};

pub use failures::{Failed, ReadFailed, Stream, report, tell};
pub use places::Place;
pub use sized::read_sized;
pub use source::{Source, go_back, put_aside, read_again, twice};
use std::io::Print;

// One read of standard input behind the first `done` bytes of `to`, which stay, counted with them. No more bytes and no failure is the end
// of the input; a read that fails put none.
pub fn read_behind(rt: HostRuntime, to: &mut [u8], done: usize) -> Result<usize, ReadFailed>
    ensures reads_behind { IfOk result (λ count. ReadsBehind done to.old count to.new) }
    ensures failed_behind { IfErr result (λ e. ReadsBehind done to.old e.count to.new) }
    ensures failed_puts_none { IfErr result (λ e. e.count ≡ min done (length to.old)) }
{
    let mut input = rt.stdin();
    source::read_behind(Stream::Input, &mut input, to, done)
}

// Reads behind the first `done` bytes of `to`, which stay, until it is full or the input ends, counted with them. Where a read fails, what
// came before it is no input, and does not fill `to`.
pub fn fill(rt: HostRuntime, to: &mut [u8], done: usize) -> Result<usize, ReadFailed>
    ensures reads_behind { IfOk result (λ count. ReadsBehind done to.old count to.new) }
    ensures failed_behind { IfErr result (λ e. ReadsBehind done to.old e.count to.new) }
    ensures failed_not_full { IfErr result (λ e. e.count < length to.new) }
{
    let mut input = rt.stdin();
    source::fill(Stream::Input, &mut input, to, done)
}

// Moves the bytes from `from` up to `end` to the front, and answers how many there are.
pub fn keep(input: &mut [u8], from: usize, end: usize) -> usize
    ensures { Keeps from end input.old result input.new }
{
    let stop = end.min(input.len());
    let start = from.min(stop);
    input.copy_within(start..stop, 0);
    stop - start
}

// Writes all of `bytes`: always possible, where there is nothing to write.
pub fn write(rt: HostRuntime, bytes: &[u8]) -> Result<(), Failed>
    ensures { length bytes.now ≡ 0 → IsOk result }
{
    if bytes.is_empty() {
        return Ok(());
    }
    rt.stdout().write_all(bytes).map_err(|error| Failed {
        stream: Stream::Output,
        error,
    })
}

// Writes the first `count` of `bytes`, or all where there are fewer.
pub fn write_front(rt: HostRuntime, bytes: &[u8], count: usize) -> Result<(), Failed>
    ensures { min count (length bytes.now) ≡ 0 → IsOk result }
{
    write(rt, &bytes[..count.min(bytes.len())])
}
