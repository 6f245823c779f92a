// Drives a dispatcher from standard input. The input is 4 bytes, lowest first, with the length of the opening bytes; the opening bytes,
// which are task entries; then call entries until the input ends. The lines of the opening and of each call are printed. At the first
// read or write that fails the program stops, and says so in a line on standard error.
#![tactic(auto)]

ghost use Rattle.std.specs.Prelude.{◌≤◌, length, IfOk, IfSome};
ghost use Rattle.entries.specs.Limits.{head_most};

use dispatcher::Dispatcher;
use entries::{Unreadable, limits};
use streams::Failed;

// A piece of the input.
const INPUT: usize = 65536;

// Room for many lines.
const LINES: usize = 4096;

// The dispatcher after the whole calls at the start of a slice, and how many bytes they took.
#[derive(Clone, Copy)]
struct Served {
    state: Dispatcher,
    taken: usize,
}

// The dispatcher after a part of the input, how many bytes at the front of the input are no whole call yet, and whether to go on.
#[derive(Clone, Copy)]
struct Progress {
    state: Dispatcher,
    kept: usize,
    more: bool,
}

// Serves the whole calls at the start of `s`, with `out` to gather their lines in, as far as they can be printed.
fn serve(rt: HostRuntime, d: Dispatcher, s: &[u8], out: &mut [u8]) -> Result<Served, Failed>
    ensures { IfOk result (λ served. served.taken ≤ length s.now) }
{
    let mut len = 0;
    let mut state = d;
    let mut at = 0;
    // a cursor over calls of different lengths, as far as they are whole
    loop {
        let entry = entries::call_at(s, at);
        let size = entries::call_size(entry);
        if size == 0 {
            break;
        }
        let answered = call_entries::answer(state, entry);
        len = printing::gather(rt, out, len, answered.text)?;
        state = answered.state;
        at += size;
    }
    streams::write_front(rt, out, len)?;
    Ok(Served { state, taken: at })
}

// Whether the bytes are a call's that more of the input may make whole, or none.
fn unfinished(rest: &[u8]) -> bool {
    matches!(entries::call_at(rest, 0), Err(Unreadable::CutShort))
}

// Reads once, and serves the whole calls that are there then.
fn turn(
    rt: HostRuntime,
    input: &mut [u8],
    out: &mut [u8],
    kept: usize,
    d: Dispatcher,
) -> Result<Progress, Failed>
    requires { kept ≤ length input.old }
    ensures { IfOk result (λ progress. progress.kept ≤ length input.old) }
{
    let end = streams::read_behind(rt, input, kept)?;
    if end == kept {
        return Ok(Progress {
            state: d,
            kept,
            more: false,
        });
    }
    let served = serve(rt, d, &input[..end], out)?;
    let left = streams::keep(input, served.taken, end);
    Ok(Progress {
        state: served.state,
        kept: left,
        more: unfinished(&input[..left]),
    })
}

// A proved loop has to end, and nothing says that the input does. So the loop has more turns than any run uses up. What is kept at the end
// is a call cut short, or an entry of another kind.
fn run(rt: HostRuntime, input: &mut [u8], out: &mut [u8], d: Dispatcher) -> Result<(), Failed> {
    let mut state = d;
    let mut kept = 0;
    for _ in 0..u64::MAX {
        let t = turn(rt, input, out, kept, state)?;
        state = t.state;
        kept = t.kept;
        if !t.more {
            break;
        }
    }
    if kept > 0 {
        printing::print_text(rt, lines::cut_short_line())?;
    }
    Ok(())
}

// Reads the opening bytes, and keeps those that are enough. The rest only has to be there.
fn read_opening(
    rt: HostRuntime,
    input: &mut [u8; INPUT],
    space: &mut [u8],
) -> Result<Option<usize>, Failed>
    ensures { IfOk result (λ whole. IfSome whole (λ kept. kept ≤ head_most)) }
{
    streams::read_sized(rt, &mut input[..limits::HEAD_MOST], space)
}

fn drive(rt: HostRuntime) -> Result<(), Failed> {
    let mut input = [0u8; INPUT];
    let mut out = [0u8; LINES];
    let Some(kept) = read_opening(rt, &mut input, &mut out)? else {
        return printing::print_text(rt, lines::cut_short_line());
    };
    let opening = guarantees::open(&input[..kept]);
    printing::print_text(rt, lines::opening_lines(opening.err()))?;
    match opening {
        Ok(state) => run(rt, &mut input, &mut out, state),
        Err(_) => Ok(()),
    }
}

fn main(rt: HostRuntime) {
    if let Err(failed) = drive(rt) {
        streams::report(rt, "session", failed);
    }
}
