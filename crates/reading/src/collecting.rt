// The releases that a record tells of, each as one number: time first, then task.
ghost use Rattle.std.specs.Prelude.{◌≡◌};
ghost use Rattle.reading.specs.Parts.{told_by, fault, NotesMore, Collects};

use entries::{RecordEntry, Release, Unreadable, limits};
use table::Refusal;

// How many releases are noted. No list can have them where one is later than any release may be or they are more than there is room for.
#[derive(Clone, Copy)]
pub struct Noted {
    pub count: usize,
    pub possible: bool,
}

#[derive(Clone, Copy)]
pub struct Collected {
    pub noted: Noted,
    pub refusal: Option<Refusal>,
}

// The release that an entry tells of. An interval tells of none.
fn told_by(entry: RecordEntry) -> Option<Release>
    ensures { result ≡ told_by entry }
{
    match entry {
        RecordEntry::JobDone(e) => Some(Release {
            task: e.task,
            time: e.release,
        }),
        RecordEntry::IntervalEnded(_) => None,
        RecordEntry::ReleaseSkipped(release) => Some(release),
    }
}

// The number by which an entry is refused; 0 where it is not.
fn fault_of(entry: Result<RecordEntry, Unreadable>) -> u8
    ensures { result ≡ fault entry }
{
    entry.err().map_or(0, Unreadable::number)
}

// One release more, where there is one.
fn note(keys: &mut [u64], n: Noted, told: Option<Release>) -> Noted
    ensures { NotesMore n told keys.old result keys.new }
{
    let Some(release) = told else {
        return n;
    };
    let count = n.count;
    let task = release.task;
    let time = release.time;
    if keys.len() <= count {
        return Noted {
            count,
            possible: false,
        };
    }
    if limits::LAST_RELEASE < time {
        return Noted {
            count,
            possible: false,
        };
    }
    keys[count] = time * 256 + task as u64;
    Noted {
        count: count + 1,
        possible: n.possible,
    }
}

// The releases of a record's entries, noted behind those that `before` counts, and the first refusal: 2 for a kind other than 16 to 18,
// then 1 for an entry that is cut short. Of a record in pieces, the bytes from there on go on with the next piece.
pub fn collect(stored: &[u8], before: Noted, keys: &mut [u64]) -> Collected
    ensures { Collects stored.now before keys.old result keys.new }
{
    let mut at: usize = 0;
    let mut noted = before;
    // a cursor over entries of different lengths
    while at < stored.len() {
        let entry = entries::record_entry_at(stored, at);
        let Ok(whole) = entry else {
            return Collected {
                noted,
                refusal: Some(Refusal::AtEntry(fault_of(entry), at)),
            };
        };
        noted = note(keys, noted, told_by(whole));
        at += entries::record_entry_size(entry);
    }
    Collected {
        noted,
        refusal: None,
    }
}
