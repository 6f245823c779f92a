// From the head of an input and a stored record, the release entries that made it.
ghost use Rattle.std.specs.Prelude.{◌≡◌, ◌+◌, ◌*◌, ◌^◌, ◌≤◌, ◌<◌, length, replicate};
ghost use Rattle.entries.specs.Entries.{size};
ghost use Rattle.record.specs.Writing.{Wrote, written};
ghost use Rattle.reading.specs.Attested.{attested};
ghost use Rattle.reading.specs.Reading.{listed_if, read_attested, reading};
ghost use Rattle.reading.specs.Parts.{releases_in, Opened, Lent};
ghost use Rattle.reading.specs.Acceptance.{ReadWithClaim};

use crate::collecting::{Noted, collect};
use crate::order::sort;
use crate::rebuilding::lay_input;
use crate::replay::yields;
use entries::{RELEASE_SIZE, limits};
use record::Unwritten;
use table::{Head, Refusal};

// A record of few bytes tells of few releases: no entry that tells of one is shorter than a release entry. Then less memory is cleared
// first.
const SOME: usize = 2048;

const FEW: usize = 512;

const SOME_INPUT: usize = limits::LONGEST_HEAD + SOME * RELEASE_SIZE;

const FEW_INPUT: usize = limits::LONGEST_HEAD + FEW * RELEASE_SIZE;

// A list of release entries in the front of `out`, or 13 with the length needed.
fn write_list(list: &[u8], out: &mut [u8]) -> Result<usize, Unwritten>
    ensures { Wrote (written list.now out.old) result out.new }
{
    if out.len() < list.len() {
        return Err(Unwritten::TooShort(list.len()));
    }
    Ok(words::copy(list, out))
}

// The list of the releases that the numbers stand for, where its run has this record; else 18. `input` has room for the input that they
// make.
fn read_listed(
    tasks: &[u8],
    head: Head,
    keys: &[u64],
    stored: &[u8],
    input: &mut [u8],
    out: &mut [u8],
) -> Result<usize, Unwritten>
    requires opened { Opened tasks.now head }
    requires keys_in_bounds { length tasks.now + size 2 * length keys.now ≤ length input.old }
    ensures { Wrote (listed_if tasks.now stored.now out.old (releases_in keys.now))
        result out.new }
{
    let end = lay_input(tasks, keys, input);
    if yields(&input[..end], head, stored) {
        let from = tasks.len();
        return write_list(&input[from..end], out);
    }
    Err(Unwritten::RefusedInput(Refusal::Alone(18)))
}

// Behind task entries that open a dispatcher. `keys` has room for every release that the record may tell of.
fn read_record(
    tasks: &[u8],
    head: Head,
    stored: &[u8],
    keys: &mut [u64],
    input: &mut [u8],
    out: &mut [u8],
) -> Result<usize, Unwritten>
    requires opened { Opened tasks.now head }
    requires lent { Lent tasks.now stored.now keys.old input.old }
    ensures { Wrote (read_attested tasks.now stored.now out.old (attested stored.now))
        result out.new }
{
    let none = Noted {
        count: 0,
        possible: true,
    };
    let found = collect(stored, none, keys);
    if let Some(fault) = found.refusal {
        return Err(Unwritten::RefusedInput(fault));
    }
    let noted = found.noted;
    if !noted.possible {
        return Err(Unwritten::RefusedInput(Refusal::Alone(18)));
    }
    let count = noted.count;
    sort(&mut keys[..count]);
    read_listed(tasks, head, &keys[..count], stored, input, out)
}

// With room for so many numbers, and for so long an input.
fn read_within<const NUMBERS: usize, const INPUT: usize>(
    tasks: &[u8],
    head: Head,
    stored: &[u8],
    out: &mut [u8],
) -> Result<usize, Unwritten>
    requires opened { Opened tasks.now head }
    requires lent { Lent tasks.now stored.now (replicate NUMBERS 0) (replicate INPUT 0) }
    requires numbers_bound { NUMBERS < 2 ^ 60 }
    requires input_bound { INPUT < 2 ^ 63 }
    ensures { Wrote (read_attested tasks.now stored.now out.old (attested stored.now))
        result out.new }
{
    let mut keys = [0u64; NUMBERS];
    let mut input = [0u8; INPUT];
    read_record(tasks, head, stored, &mut keys, &mut input, out)
}

// With as much memory as the record asks for.
fn read_opened(tasks: &[u8], head: Head, stored: &[u8], out: &mut [u8]) -> Result<usize, Unwritten>
    requires { Opened tasks.now head }
    ensures { Wrote (read_attested tasks.now stored.now out.old (attested stored.now))
        result out.new }
{
    if stored.len() <= FEW * RELEASE_SIZE {
        return read_within::<FEW, FEW_INPUT>(tasks, head, stored, out);
    }
    if stored.len() <= SOME * RELEASE_SIZE {
        return read_within::<SOME, SOME_INPUT>(tasks, head, stored, out);
    }
    read_within::<{ limits::RELEASES }, { limits::LONGEST_FILE }>(tasks, head, stored, out)
}

fn read_checked(tasks: &[u8], stored: &[u8], out: &mut [u8]) -> Result<usize, Unwritten>
    ensures { Wrote (reading tasks.now stored.now out.old) result out.new }
{
    let head = heads::head_alone(tasks)?;
    read_opened(tasks, head, stored, out)
}

// The release entries in the front of `out`, and their length: of the one list whose run has this record. A refusal of the task entries, as
// at opening; of the record's entries, 2 and 1, with places that count from its start; 18 where no list yields it; or 13 with the length
// needed. Nothing behind the list changes, and on a refusal nothing at all.
pub fn read(tasks: &[u8], stored: &[u8], out: &mut [u8]) -> Result<usize, Unwritten>
    ensures { ReadWithClaim tasks.now stored.now out.old result out.new }
{
    read_checked(tasks, stored, out)
}
