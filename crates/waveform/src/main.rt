// Reads an input on standard input and writes its run as a value change dump to standard output, instant by instant: nothing where the
// input is refused, and then the R line on standard error says why. A read that fails is no input, and at the first write that fails the
// program stops; either is said in a line on standard error.
#![tactic(auto)]

ghost use Rattle.std.specs.Prelude.{◌≤◌, length, IfOk, IfErr};
ghost use Rattle.streams.specs.Fronts.{IsPrefixLen};
ghost use Rattle.run.specs.Cut.{file_most};

use entries::limits;
use rules::{View, at};
use streams::{Failed, ReadFailed};
use table::{Head, Refusal};

// What an instant adds, where there are the views before and after it.
fn write_instant(
    rt: HostRuntime,
    begun: bool,
    t: u64,
    before: View,
    after: View,
) -> Result<(), Failed> {
    let mut text = [0u8; waves::ROOM];
    let n = waves::put_instant(&mut text, begun, t, before, after);
    streams::write_front(rt, &text, n)
}

fn write_run(rt: HostRuntime, input: &[u8], head: Head) -> Result<(), Failed>
    requires { head.end ≤ length input.now }
{
    let mut entries = [0u8; limits::INSTANT_MOST];
    let table = head.table;
    let mut d = dispatcher::opened(table, head.marked);
    let mut seen = views::viewed_of(d);
    let mut from = head.end;
    let mut begun = false;
    // instant by instant, since what is written is read from the dispatcher behind each, which `hand_over` does not hand on
    for _ in 0..limits::BUDGET_MOST {
        let x = pieces::next_piece(&input[from..], d, 1, &mut entries);
        if x.ended {
            break;
        }
        d = x.state;
        let now = views::viewed_of(d);
        write_instant(rt, begun, d.times[at::LAST], seen, now)?;
        from += x.read;
        seen = now;
        begun = true;
    }
    if begun {
        return Ok(());
    }
    write_instant(rt, false, 0, seen, seen)
}

fn say(rt: HostRuntime, refusal: Refusal) {
    printing::tell_refusal(rt, b"waveform: the input is refused: ", refusal);
}

fn answer(rt: HostRuntime, input: &[u8]) -> Result<(), Failed> {
    match run::check_file(input) {
        Ok(head) => {
            streams::write(rt, &waves::header())?;
            write_run(rt, input, head)
        }
        Err(refusal) => {
            say(rt, refusal);
            Ok(())
        }
    }
}

// Reads as much of an input as there is room for, which is enough: run/specs/Cut, `ReadFromFront`. What stands behind it is not read.
fn read(rt: HostRuntime, input: &mut [u8]) -> Result<usize, ReadFailed>
    requires { file_most ≤ length input.old }
    ensures read { IfOk result (λ count. IsPrefixLen count input.new) }
    ensures failed { IfErr result (λ e. IsPrefixLen e.count input.new) }
{
    streams::fill(rt, input, 0)
}

fn drive(rt: HostRuntime) -> Result<(), Failed> {
    let mut input = [0u8; limits::FILE_MOST];
    let count = read(rt, &mut input)?;
    answer(rt, &input[..count])
}

fn main(rt: HostRuntime) {
    if let Err(failed) = drive(rt) {
        streams::report(rt, "waveform", failed);
    }
}
