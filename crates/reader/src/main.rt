// Reads task entries and a stored record on standard input and prints the releases that made the record, an L line for each, or an R line
// where one of the two is refused. The input is 4 bytes, lowest first, with the length of the task entries; the task entries; then the
// record until the input ends. An X line alone says that there was nothing to read: the length or the task entries are cut short. At the
// first read or write that fails the program stops, and says so in a line on standard error.
//
// No more of a record is kept than a piece. It is gone through twice: once for the releases that its entries tell of, and once more beside
// the run of their list.
#![tactic(auto)]

ghost use Rattle.std.specs.Prelude.{◌≤◌, length, IfOk};

use entries::{Entry, RELEASE_SIZE, limits};
use lines::Text;
use pieces::Takes;
use reading::Noted;
use streams::{Failed, ReadFailed, Source};
use table::{Head, Refusal};

// A piece of the record, and room for many lines.
const INPUT: usize = 8192;

// Room for the input that a file's releases make, behind as many bytes of task entries as are enough to read (rules/specs/Cut,
// `OpensFromFront`).
const LIST: usize = limits::HEAD_MOST + limits::LONGEST_LIST;

// A piece of a run: what many instants leave.
const PIECE: usize = 4096;

// As many times as no input fills the buffer. A proved loop has to end, and nothing says that the input does.
const TURNS: usize = 1099511627776;

// What is noted, how many bytes the record has, and its refusal.
#[derive(Clone, Copy)]
struct Found {
    noted: Noted,
    size: usize,
    refusal: Option<Refusal>,
}

// What is noted with a piece, how many bytes its whole entries have, and how many of those behind them are carried over; the number by
// which the entry there is refused, if it is; and whether the input has ended.
#[derive(Clone, Copy)]
struct Piece {
    noted: Noted,
    taken: usize,
    carried: usize,
    fault: Option<u8>,
    ended: bool,
}

fn print_refusal(rt: HostRuntime, refusal: Refusal) -> Result<(), Failed> {
    printing::print_text(rt, lines::refused_input_line(Some(refusal)))
}

// The line of a release entry.
fn listed(bytes: &[u8]) -> Text {
    match entries::entry_at(bytes, 0) {
        Ok(Entry::ReleaseEntry(release)) => lines::listed_line(release.task, release.time),
        _ => lines::no_line(),
    }
}

// Prints the releases of a list, as far as they can be printed.
fn print_list(rt: HostRuntime, list: &[u8], out: &mut [u8]) -> Result<(), Failed> {
    let mut len = 0;
    for bytes in list.chunks_exact(RELEASE_SIZE) {
        len = printing::gather(rt, out, len, listed(bytes))?;
    }
    streams::write_front(rt, out, len)
}

// ---- The first time

// Moves the bytes behind the whole entries to the front, and answers how many there are: none where no entry is refused.
fn carry(input: &mut [u8], refusal: Option<Refusal>, end: usize) -> usize
    ensures { (result ≤ end) × (result ≤ length input.old) }
{
    let Some(refusal) = refusal else {
        return 0;
    };
    streams::keep(input, refusal.place(), end)
}

// Reads a piece behind the `kept` bytes that were carried over. Where `place` bytes of the record, more than any list yields, are before
// it, it is not read again.
fn next_piece(
    rt: HostRuntime,
    source: &Source,
    place: usize,
    input: &mut [u8],
    kept: usize,
    keys: &mut [u64],
    noted: Noted,
) -> Result<Piece, Failed>
    requires kept_fits { kept ≤ length input.old }
    requires noted_fits { noted.count ≤ length keys.old }
    ensures noted_fits { IfOk result (λ x. x.noted.count ≤ length keys.new) }
    ensures carried_fits { IfOk result (λ x. x.carried ≤ length input.old) }
{
    let end = streams::fill(rt, input, kept)?;
    if place <= limits::RECORD_MOST {
        streams::put_aside(source, &input[kept..end])?;
    }
    let found = reading::collect(&input[..end], noted, keys);
    let carried = carry(input, found.refusal, end);
    Ok(Piece {
        noted: found.noted,
        taken: end - carried,
        carried,
        fault: found.refusal.map(Refusal::number),
        ended: end < input.len(),
    })
}

// The refusal of a record with whole entries of so many bytes: that of the entry behind them, else 18 where no list can yield it.
fn refusal_of(noted: Noted, size: usize, fault: Option<u8>) -> Option<Refusal> {
    if let Some(number) = fault {
        return Some(Refusal::AtEntry(number, size));
    }
    if !noted.possible || limits::RECORD_MOST < size {
        return Some(Refusal::Alone(18));
    }
    None
}

// The releases of the record on standard input, or its refusal. An entry that is cut short is refused where the input has ended.
fn collect(
    rt: HostRuntime,
    source: &Source,
    input: &mut [u8],
    keys: &mut [u64],
) -> Result<Found, Failed>
    ensures { IfOk result (λ found. found.noted.count ≤ length keys.new) }
{
    let mut noted = Noted {
        count: 0,
        possible: true,
    };
    let mut size: usize = 0;
    let mut kept = 0;
    for _ in 0..TURNS {
        let x = next_piece(rt, source, size, input, kept, keys, noted)?;
        noted = x.noted;
        size = size.saturating_add(x.taken);
        if x.ended || x.fault == Some(2) {
            return Ok(Found {
                noted,
                size,
                refusal: refusal_of(noted, size, x.fault),
            });
        }
        kept = x.carried;
    }
    Ok(Found {
        noted,
        size,
        refusal: Some(Refusal::Alone(18)),
    })
}

// ---- The second time

// Why the second time does not come to the record's end: a call failed, or the record is another one than the run's.
#[derive(Clone, Copy)]
enum Stopped {
    Failed(Failed),
    Differs,
}

impl From<Failed> for Stopped {
    fn from(failed: Failed) -> Stopped {
        Stopped::Failed(failed)
    }
}

impl From<ReadFailed> for Stopped {
    fn from(e: ReadFailed) -> Stopped {
        Stopped::Failed(e.failed)
    }
}

// Reads the next bytes of the record, of which there are `rest`: they have to be these.
fn read_same(
    source: &Source,
    made: &[u8],
    rest: &mut usize,
    input: &mut [u8],
) -> Result<(), Stopped> {
    let n = made.len();
    if *rest < n || input.len() < n {
        return Err(Stopped::Differs);
    }
    let count = streams::read_again(source, &mut input[..n])?;
    if !reading::same(&input[..count], made) {
        return Err(Stopped::Differs);
    }
    *rest -= n;
    Ok(())
}

// The record read again, of which there are `rest` bytes more: each piece of the run has to be its next bytes.
#[derive(Drop)]
struct Again<'s, 'i> {
    source: &'s Source,
    rest: usize,
    input: &'i mut [u8],
}

impl Takes for Again<'_, '_> {
    type Error = Stopped;

    ghost taken = { λ before made answer after. Unit {0} };

    fn take(&mut self, made: &[u8]) -> Result<(), Stopped> {
        read_same(self.source, made, &mut self.rest, self.input)
    }
}

// Reads the record, which has `size` bytes: it has to be that of the run.
fn replays(
    source: &Source,
    list: &[u8],
    part: Head,
    size: usize,
    input: &mut [u8],
) -> Result<(), Stopped>
    requires { part.end ≤ length list.now }
{
    let mut made = [0u8; PIECE];
    let mut again = Again {
        source,
        rest: size,
        input,
    };
    let releases = &list[part.end..];
    let d = dispatcher::opened(part.table, part.marked);
    pieces::hand_over(releases, d, limits::BUDGET_MOST, &mut made, &mut again)?;
    if again.rest == 0 {
        Ok(())
    } else {
        Err(Stopped::Differs)
    }
}

// Reads the record once more: the input has to be accepted, and the record to be its run's.
fn yields(source: &Source, list: &[u8], size: usize, input: &mut [u8]) -> Result<(), Stopped> {
    streams::go_back(source)?;
    match run::check_file(list) {
        Ok(part) => replays(source, list, part, size, input),
        Err(_) => Err(Stopped::Differs),
    }
}

// ---- Both

// Prints the list of the releases that the numbers stand for, where its run has the record of `size` bytes; else 18.
fn print_if_yielded(
    rt: HostRuntime,
    tasks: &[u8],
    source: &Source,
    size: usize,
    keys: &mut [u64],
    list: &mut [u8],
    input: &mut [u8],
) -> Result<(), Failed> {
    reading::sort(keys);
    let end = reading::rebuild(tasks, keys, list);
    match yields(source, &list[..end], size, input) {
        Ok(()) => print_list(rt, &list[tasks.len().min(end)..end], input),
        Err(Stopped::Differs) => print_refusal(rt, Refusal::Alone(18)),
        Err(Stopped::Failed(failed)) => Err(failed),
    }
}

// Behind task entries that open a dispatcher.
fn answer(
    rt: HostRuntime,
    tasks: &[u8],
    input: &mut [u8],
    keys: &mut [u64],
    list: &mut [u8],
) -> Result<(), Failed> {
    let source = streams::twice(rt)?;
    let found = collect(rt, &source, input, keys)?;
    if let Some(refusal) = found.refusal {
        return print_refusal(rt, refusal);
    }
    let keys = &mut keys[..found.noted.count];
    print_if_yielded(rt, tasks, &source, found.size, keys, list, input)
}

fn drive(rt: HostRuntime) -> Result<(), Failed> {
    let mut tasks = [0u8; limits::HEAD_MOST];
    let mut input = [0u8; INPUT];
    let mut keys = [0u64; limits::RELEASES];
    let mut list = [0u8; LIST];
    let Some(kept) = streams::read_sized(rt, &mut tasks, &mut input)? else {
        return printing::print_text(rt, lines::cut_short_line());
    };
    match guarantees::open(&tasks[..kept]) {
        Ok(_) => answer(rt, &tasks[..kept], &mut input, &mut keys, &mut list),
        Err(refusal) => print_refusal(rt, refusal),
    }
}

fn main(rt: HostRuntime) {
    if let Err(failed) = drive(rt) {
        streams::report(rt, "reader", failed);
    }
}
