// The lines of a record, read from its bytes.
#![tactic(auto)]

ghost use Rattle.std.specs.Prelude.{◌≡◌};
ghost use Rattle.lines.specs.Lines.{line_of};
ghost use Rattle.lines.specs.Text.{Prints};
ghost use Rattle.record_lines.specs.Lines.{read_line, LineAt, FilledWith};

use entries::{RecordEntry, Unreadable};
use lines::Text;

// The line of an entry, and the place behind the entry.
#[derive(Clone, Copy)]
pub struct Line {
    pub text: Text,
    pub next: usize,
}

// How many bytes of a slice were filled with whole lines, and the place of the first entry whose line is not among them.
#[derive(Clone, Copy)]
pub struct Filled {
    pub len: usize,
    pub next: usize,
}

// The line of an entry.
fn line_of(e: RecordEntry) -> Text
    ensures { Prints result (line_of e) }
{
    match e {
        RecordEntry::JobDone(job) => lines::job_line(job),
        RecordEntry::IntervalEnded(interval) => lines::interval_line(interval),
        RecordEntry::ReleaseSkipped(release) => lines::skipped_line(release.task, release.time),
    }
}

// None of what is no entry.
fn read_line(entry: Result<RecordEntry, Unreadable>) -> Text
    ensures { Prints result (read_line entry) }
{
    match entry {
        Ok(whole) => line_of(whole),
        Err(_) => lines::no_line(),
    }
}

// The line of the entry at `at`, and the place of the next one: no bytes and `at` itself where no whole entry stands.
pub fn line_at(s: &[u8], at: usize) -> Line
    ensures { LineAt s.now at result.text result.next }
{
    let entry = entries::record_entry_at(s, at);
    let size = entries::record_entry_size(entry);
    let text = read_line(entry);
    Line {
        text,
        next: at + size,
    }
}

// The lines of the entries from `at` on at the start of `out`, as many as fit whole.
pub fn fill(s: &[u8], at: usize, out: &mut [u8]) -> Filled
    ensures { FilledWith s.now at out.old result.len result.next out.new }
{
    let mut len = 0;
    let mut next = at;
    // a cursor over entries of different lengths, as far as their lines fit
    loop {
        let line = line_at(s, next);
        let text = line.text;
        let n = lines::put(text, &mut out[len..]);
        if n == 0 {
            break;
        }
        len += n;
        next = line.next;
    }
    Filled { len, next }
}
