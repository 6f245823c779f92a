// An input, checked entry by entry: its head, then of the entries behind it 2, 1, then 3 of a task or a spacing and 8, 10, 9, 11 of a
// release.
ghost use Rattle.std.specs.Prelude.{◌≡◌, length};
ghost use Rattle.std.specs.Result.{result_err};
ghost use Rattle.table.specs.Refusals.{number_found};
ghost use Rattle.run.specs.Files as files;

use entries::{Entry, RELEASE_SIZE, Release, limits};
use table::{Fault, Head, Refusal};

// Rising strictly by time and then task number.
fn rises(last: Option<Release>, r: Release) -> bool
    ensures { result ≡ files.rises last r }
{
    match last {
        None => true,
        Some(l) => (l.time, l.task) < (r.time, r.task),
    }
}

// 8, 10, 9, 11, in this order.
fn release_refusal(
    present: u32,
    last: Option<Release>,
    count: usize,
    r: Release,
) -> Result<(), Fault>
    ensures { number_found result ≡ files.release_refusal present last count r }
{
    if !sets::contains(present, r.task) {
        return Err(Fault::UnknownTask);
    }
    if limits::LAST_RELEASE < r.time {
        return Err(Fault::TooLate);
    }
    if !rises(last, r) {
        return Err(Fault::NotRising);
    }
    if limits::RELEASES <= count {
        return Err(Fault::TooMany);
    }
    Ok(())
}

// The first refusal of the entries from `start` on.
fn check_releases(s: &[u8], start: usize, present: u32) -> Result<(), Refusal>
    ensures { result_err result ≡ files.refusal_of
        (files.releases_from (length s.now) s.now start present None 0) }
{
    let mut at = start;
    let mut last = None;
    let mut count: usize = 0;
    // a cursor over entries of different lengths, left with a value: no iterator would be plainer
    'entries: loop {
        if s.len() <= at {
            break 'entries Ok(());
        }
        let entry = match entries::entry_at(s, at) {
            Ok(entry) => entry,
            Err(unreadable) => {
                break 'entries Err(Refusal::AtEntry(unreadable.number(), at));
            }
        };
        match entry {
            Entry::TaskEntry(_) => {
                break 'entries Err(Refusal::AtEntry(3, at));
            }
            Entry::SpacingEntry(_) => {
                break 'entries Err(Refusal::AtEntry(3, at));
            }
            Entry::ReleaseEntry(r) => {
                if let Err(fault) = release_refusal(present, last, count, r) {
                    break 'entries Err(fault.at(at));
                }
                last = Some(r);
                count += 1;
                at += RELEASE_SIZE;
            }
        }
    }
}

// The releases behind a head that is not refused: the head, or their first refusal.
pub fn check_behind(s: &[u8], head: Head) -> Result<Head, Refusal>
    ensures { result ≡ files.head_unless head
        (files.refusal_of (files.releases_from (length s.now) s.now
        head.end head.table.present None 0)) }
{
    check_releases(s, head.end, head.table.present)?;
    Ok(head)
}

// The head of an input that is accepted, or the first refusal of its entries.
pub fn check_file(s: &[u8]) -> Result<Head, Refusal>
    ensures { result ≡ files.file_head s.now }
{
    if s.is_empty() {
        return Err(Refusal::Alone(12));
    }
    check_behind(s, heads::head_of(s)?)
}
