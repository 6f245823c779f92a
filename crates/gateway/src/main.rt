// Reads an input on standard input and prints its run, instant by instant: a J, I or S line for each entry of its record, or an R line
// where the input is refused. No more of a record is kept than a piece of it. A read that fails is no input, and at the first write that
// fails the program stops; either is said in a line on standard error.
#![tactic(auto)]

ghost use Rattle.std.specs.Prelude.{◌≤◌, length, IfOk, IfErr};
ghost use Rattle.streams.specs.Fronts.{IsPrefixLen};
ghost use Rattle.run.specs.Cut.{file_most};

use entries::limits;
use pieces::Takes;
use streams::{Failed, ReadFailed};
use table::{Head, Refusal};

// A piece of a record: what many instants leave.
const ENTRIES: usize = 4096;

// Room for the lines of such a piece.
const LINES: usize = 16384;

// Prints the lines of the entries, as many at once as there is room for.
fn print_lines(rt: HostRuntime, entries: &[u8], out: &mut [u8]) -> Result<(), Failed> {
    let mut at = 0;
    // each filling says where the next begins: there is nothing to count
    loop {
        let filled = record_lines::fill(entries, at, out);
        if filled.len == 0 {
            return Ok(());
        }
        streams::write_front(rt, out, filled.len)?;
        at = filled.next;
    }
}

// Prints the lines of each piece.
#[derive(Drop)]
struct Printer<'a> {
    rt: HostRuntime,
    out: &'a mut [u8],
}

impl Takes for Printer<'_> {
    type Error = Failed;

    ghost taken = { λ before piece answer after. Unit {0} };

    fn take(&mut self, piece: &[u8]) -> Result<(), Failed> {
        print_lines(self.rt, piece, self.out)
    }
}

fn print_run(rt: HostRuntime, input: &[u8], head: Head, out: &mut [u8]) -> Result<(), Failed>
    requires { head.end ≤ length input.now }
{
    let mut entries = [0u8; ENTRIES];
    let rest = &input[head.end..];
    let d = dispatcher::opened(head.table, head.marked);
    let mut printer = Printer { rt, out };
    pieces::hand_over(rest, d, limits::BUDGET_MOST, &mut entries, &mut printer)
}

fn print_refusal(rt: HostRuntime, refusal: Refusal) -> Result<(), Failed> {
    printing::print_text(rt, lines::refused_input_line(Some(refusal)))
}

fn answer(rt: HostRuntime, input: &[u8], out: &mut [u8]) -> Result<(), Failed> {
    match run::check_file(input) {
        Ok(head) => print_run(rt, input, head, out),
        Err(refusal) => print_refusal(rt, refusal),
    }
}

// Reads as much of an input as there is room for, which is enough: run/specs/Cut, `ReadFromFront`. What stands behind it is not read.
fn read(rt: HostRuntime, input: &mut [u8]) -> Result<usize, ReadFailed>
    requires { file_most ≤ length input.old }
    ensures read { IfOk result (λ count. IsPrefixLen count input.new) }
    ensures failed { IfErr result (λ e. IsPrefixLen e.count input.new) }
{
    streams::fill(rt, input, 0)
}

fn drive(rt: HostRuntime) -> Result<(), Failed> {
    let mut input = [0u8; limits::FILE_MOST];
    let mut out = [0u8; LINES];
    let count = read(rt, &mut input)?;
    answer(rt, &input[..count], &mut out)
}

fn main(rt: HostRuntime) {
    if let Err(failed) = drive(rt) {
        streams::report(rt, "gateway", failed);
    }
}
