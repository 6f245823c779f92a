// The printed lines: a letter, the fields in decimal with a space before each, a newline.
#![tactic(auto)]

ghost use Rattle.std.specs.Prelude.{◌≡◌, [], ◌∷◌, ◌+◌, ◌≤◌, ◌<◌, length};
ghost use Rattle.entries.specs.Entries.{each};
ghost use Rattle.rules.specs.Entries.{done_entries, closed_entries};
ghost use Rattle.lines.specs.Lines.{decimal, field, task_field, due_field, no_field, newline, job_line, interval_line, timed_line, skipped_line, listed_line, line_of, answer_line, enquiry_line, served_lines, shown_lines, refused_input_line, refused_call_line, cut_short_line, instant_lines, enquiry_lines, mark_lines, opening_lines};
ghost use Rattle.lines.specs.Text.{text_of, shown, room, written, Appended, Prints};

use entries::{IntervalEntry, JobEntry};
use rules::{Closing, Occurred};
use table::Refusal;

// A text: the first `len` of the bytes. All lines of one answer fit: a job's line takes at most 73 bytes, an interval's 72, and the
// answer's own 34, an enquiry's 55.
// An array and a length, and no vector of bounded length, since `put` takes any text and a text is copied.
#[derive(Clone, Copy)]
pub struct Text {
    pub bytes: [u8; 224],
    pub len: usize,
}

impl Text {
    fn byte(mut self, b: u8) -> Text
        requires { self.len < 224 }
        ensures { Appended self result (b ∷ []) 1 }
    {
        let at = self.len;
        self.bytes[at] = b;
        self.len = at + 1;
        self
    }

    // The digits above the last one first.
    fn number(self, n: u64) -> Text
        requires { self.len + length (decimal n) ≤ 224 }
        ensures { Appended self result (decimal n) (length (decimal n)) }
    {
        if n < 10 {
            return self.byte(48 + n as u8);
        }
        self.number(n / 10).byte(48 + (n % 10) as u8)
    }

    // A number of 64 bits has at most 20 digits, one of 32 bits 10 and one of 8 bits 3.
    fn field(self, n: u64) -> Text
        requires { self.len + 21 ≤ 224 }
        ensures { Appended self result (field n) 21 }
    {
        self.byte(b' ').number(n)
    }

    fn word_field(self, n: u32) -> Text
        requires { self.len + 11 ≤ 224 }
        ensures { Appended self result (field n) 11 }
    {
        self.byte(b' ').number(n as u64)
    }

    fn byte_field(self, n: u8) -> Text
        requires { self.len + 4 ≤ 224 }
        ensures { Appended self result (field n) 4 }
    {
        self.byte(b' ').number(n as u64)
    }

    // `-` where there is no number.
    fn no_field(self) -> Text
        requires { self.len + 2 ≤ 224 }
        ensures { Appended self result no_field 2 }
    {
        self.byte(b' ').byte(b'-')
    }

    fn task_field(self, task: Option<u8>) -> Text
        requires { self.len + 4 ≤ 224 }
        ensures { Appended self result (task_field task) 4 }
    {
        match task {
            None => self.no_field(),
            Some(n) => self.byte_field(n),
        }
    }

    fn due_field(self, due: Option<u64>) -> Text
        requires { self.len + 21 ≤ 224 }
        ensures { Appended self result (due_field due) 21 }
    {
        match due {
            None => self.no_field(),
            Some(time) => self.field(time),
        }
    }

    fn job(self, e: JobEntry) -> Text
        requires { self.len + 73 ≤ 224 }
        ensures { Appended self result (job_line e) 73 }
    {
        let head = self.byte(b'J').byte_field(e.task);
        let times = head.field(e.release).field(e.start).field(e.completion);
        times.byte_field(e.blocked).byte(b'\n')
    }

    fn interval(self, e: IntervalEntry) -> Text
        requires { self.len + 72 ≤ 224 }
        ensures { Appended self result (interval_line e) 72 }
    {
        let task = e.task;
        let copiedout = e.copiedout;
        let chosen = e.chosen;
        let promoted = e.promoted;
        let head = self.byte(b'I').field(e.begin).field(e.end);
        let processor = head.byte_field(e.half).task_field(task).byte_field(e.work);
        let engine = processor
            .task_field(copiedout)
            .task_field(chosen)
            .byte_field(e.fate);
        engine.task_field(promoted).byte(b'\n')
    }

    fn done(self, done: Option<JobEntry>) -> Text
        requires { self.len + 73 ≤ 224 }
        ensures { Appended self result (each line_of (done_entries done)) 73 }
    {
        match done {
            None => self,
            Some(e) => self.job(e),
        }
    }

    fn closing(self, closed: Closing) -> Text
        requires { self.len + 72 ≤ 224 }
        ensures { Appended self result (each line_of (closed_entries closed [])) 72 }
    {
        match closed {
            Closing::Unclosed => self,
            Closing::BeforeReleases(e) => self.interval(e),
            Closing::AfterReleases(e) => self.interval(e),
        }
    }

    fn answer(self, o: Occurred) -> Text
        requires { self.len + 34 ≤ 224 }
        ensures { Appended self result (answer_line o) 34 }
    {
        let due = o.due;
        self.byte(b'A')
            .word_field(o.skipped)
            .due_field(due)
            .byte(b'\n')
    }

    fn enquiry(self, o: Occurred, ticket: u64) -> Text
        requires { self.len + 55 ≤ 224 }
        ensures { Appended self result (enquiry_line o ticket) 55 }
    {
        let due = o.due;
        self.byte(b'E')
            .word_field(o.skipped)
            .due_field(due)
            .field(ticket)
            .byte(b'\n')
    }
}

fn empty() -> Text
    ensures { (result ≡ text_of []) × (result.len ≡ 0) }
{
    Text {
        bytes: [0; 224],
        len: 0,
    }
}

// A line of a letter alone.
fn letter_line(letter: u8) -> Text
    ensures { Prints result (letter ∷ newline) }
{
    empty().byte(letter).byte(b'\n')
}

// No line.
pub fn no_line() -> Text
    ensures { Prints result [] }
{
    empty()
}

// J: a job done.
pub fn job_line(e: JobEntry) -> Text
    ensures { Prints result (job_line e) }
{
    empty().job(e)
}

// I: an interval closed.
pub fn interval_line(e: IntervalEntry) -> Text
    ensures { Prints result (interval_line e) }
{
    empty().interval(e)
}

// A line of a letter, a task and a time.
fn timed_line(letter: u8, task: u8, time: u64) -> Text
    ensures { Prints result (timed_line letter task time) }
{
    empty()
        .byte(letter)
        .byte_field(task)
        .field(time)
        .byte(b'\n')
}

// S: a release skipped.
pub fn skipped_line(task: u8, time: u64) -> Text
    ensures { Prints result (skipped_line task time) }
{
    timed_line(b'S', task, time)
}

// L: a release of the list that made a record.
pub fn listed_line(task: u8, time: u64) -> Text
    ensures { Prints result (listed_line task time) }
{
    timed_line(b'L', task, time)
}

// R: an input refused.
pub fn refused_input_line(refusal: Option<Refusal>) -> Text
    ensures { Prints result (refused_input_line refusal) }
{
    let number = table::number_of(refusal);
    let place = table::place_of(refusal);
    empty()
        .byte(b'R')
        .byte_field(number)
        .field(place as u64)
        .byte(b'\n')
}

// R: a call refused.
pub fn refused_call_line(number: u8) -> Text
    ensures { Prints result (refused_call_line number) }
{
    empty().byte(b'R').byte_field(number).byte(b'\n')
}

// X: a call cut short, or none.
pub fn cut_short_line() -> Text
    ensures { Prints result cut_short_line }
{
    letter_line(b'X')
}

// The lines of what occurred at a served instant.
pub fn served_lines(o: Occurred) -> Text
    ensures { Prints result (served_lines o) }
{
    let done = o.done;
    let closed = o.closed;
    empty().done(done).closing(closed).answer(o)
}

// The lines of what would occur at an instant that an enquiry shows, with its ticket.
fn shown_lines(o: Occurred, ticket: u64) -> Text
    ensures { Prints result (shown_lines o ticket) }
{
    let done = o.done;
    let closed = o.closed;
    empty().done(done).closing(closed).enquiry(o, ticket)
}

// The lines of an instant's answer, of which the refusal is a number.
pub fn instant_lines(answer: Result<Occurred, u8>) -> Text
    ensures { Prints result (instant_lines answer) }
{
    match answer {
        Err(number) => refused_call_line(number),
        Ok(o) => served_lines(o),
    }
}

// The lines of an enquiry: what the instant would answer, with its ticket, or the refusal.
pub fn enquiry_lines(answer: Result<Occurred, u8>, ticket: u64) -> Text
    ensures { Prints result (enquiry_lines answer ticket) }
{
    match answer {
        Err(number) => refused_call_line(number),
        Ok(o) => shown_lines(o, ticket),
    }
}

// The line of a mark call's answer.
pub fn mark_lines(answer: Result<(), u8>) -> Text
    ensures { Prints result (mark_lines answer) }
{
    match answer {
        Err(number) => refused_call_line(number),
        Ok(()) => letter_line(b'M'),
    }
}

// The line of an opening.
pub fn opening_lines(refusal: Option<Refusal>) -> Text
    ensures { Prints result (opening_lines refusal) }
{
    match refusal {
        None => letter_line(b'O'),
        Some(_) => refused_input_line(refusal),
    }
}

fn shown_len(text: Text) -> usize
    ensures { (result ≡ length (shown text)) × (result ≤ 224) }
{
    text.len.min(224)
}

// The text at the start of `out`, and how many bytes were written: none if `out` is too short.
pub fn put(text: Text, out: &mut [u8]) -> usize
    ensures { (result ≡ room text out.old) × (out.new ≡ written text out.old) }
{
    let n = shown_len(text);
    if out.len() < n {
        return 0;
    }
    out[..n].copy_from_slice(&text.bytes[..n]);
    n
}
