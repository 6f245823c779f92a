// Reads an input on standard input and writes the bytes of its record to standard output, piece by piece: none where the input is
// refused, and then the R line on standard error says why. No more of a record is kept than its buffer holds. A read that fails is no
// input, and at the first write that fails the program stops; either is said in a line on standard error.
#![tactic(auto)]

ghost use Rattle.std.specs.Prelude.{◌≤◌, length, IfOk, IfErr};
ghost use Rattle.streams.specs.Fronts.{IsPrefixLen};
ghost use Rattle.entries.specs.Limits.{instant_most};
ghost use Rattle.run.specs.Cut.{file_most};

use entries::limits;
use pieces::Takes;
use streams::{Failed, ReadFailed};
use table::{Head, Refusal};

// Room for the entries of many instants.
const ENTRIES: usize = 16384;

// Writes each piece.
#[derive(Drop)]
struct Writer {
    rt: HostRuntime,
}

impl Takes for Writer {
    type Error = Failed;

    ghost taken = { λ before piece answer after. Unit {0} };

    fn take(&mut self, piece: &[u8]) -> Result<(), Failed> {
        streams::write(self.rt, piece)
    }
}

fn write_run(rt: HostRuntime, input: &[u8], head: Head, out: &mut [u8]) -> Result<(), Failed>
    requires end_in_bounds { head.end ≤ length input.now }
    requires instant_most_in_bounds { instant_most ≤ length out.old }
{
    let rest = &input[head.end..];
    let d = dispatcher::opened(head.table, head.marked);
    pieces::hand_over(rest, d, limits::BUDGET_MOST, out, &mut Writer { rt })
}

fn say(rt: HostRuntime, refusal: Refusal) {
    printing::tell_refusal(rt, b"recorder: the input is refused: ", refusal);
}

fn answer(rt: HostRuntime, input: &[u8], out: &mut [u8]) -> Result<(), Failed>
    requires { instant_most ≤ length out.old }
{
    match run::check_file(input) {
        Ok(head) => write_run(rt, input, head, out),
        Err(refusal) => {
            say(rt, refusal);
            Ok(())
        }
    }
}

// Reads as much of an input as there is room for, which is enough: run/specs/Cut, `ReadFromFront`. What stands behind it is not read.
fn read(rt: HostRuntime, input: &mut [u8]) -> Result<usize, ReadFailed>
    requires { file_most ≤ length input.old }
    ensures read { IfOk result (λ count. IsPrefixLen count input.new) }
    ensures failed { IfErr result (λ e. IsPrefixLen e.count input.new) }
{
    streams::fill(rt, input, 0)
}

fn drive(rt: HostRuntime) -> Result<(), Failed> {
    let mut input = [0u8; limits::FILE_MOST];
    let mut out = [0u8; ENTRIES];
    let count = read(rt, &mut input)?;
    answer(rt, &input[..count], &mut out)
}

fn main(rt: HostRuntime) {
    if let Err(failed) = drive(rt) {
        streams::report(rt, "recorder", failed);
    }
}
