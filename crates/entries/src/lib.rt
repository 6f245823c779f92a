// The wire format: the entries of an input and of a record, written and taken apart, and the calls of a session, taken apart.
#![tactic(auto)]

mod calls;
pub mod limits;

ghost use Rattle.std.specs.Prelude.{◌≡◌, [], ◌∷◌, ◌+◌, ◌≤◌, length};
ghost use Rattle.entries.specs.Entries as entries;
ghost use Rattle.entries.specs.Entries.{Put, laid};
ghost use Rattle.entries.specs.Unreadable.{unreadable_number};
ghost use Rattle.words.specs.Words.{bytes_of};

pub use calls::{call_at, call_size};

// An entry's first byte is its kind: numbers, since they are bytes of the wire.
pub const TASK_KIND: u8 = 1;

pub const RELEASE_KIND: u8 = 2;

pub const SPACING_KIND: u8 = 3;

pub const JOB_KIND: u8 = 16;

pub const INTERVAL_KIND: u8 = 17;

pub const SKIPPED_KIND: u8 = 18;

// An entry's length, its kind byte included.
pub const TASK_SIZE: usize = 16;

pub const RELEASE_SIZE: usize = 10;

pub const SPACING_SIZE: usize = 6;

pub const JOB_SIZE: usize = 27;

pub const INTERVAL_SIZE: usize = 24;

pub const SKIPPED_SIZE: usize = 10;

// The byte for "no task", on the wire.
pub const NO_TASK: u8 = 255;

// The places of an entry's fields, the kind byte at 0: one list for what is written and what is taken apart.
const TASK_NUMBER: usize = 1;

const TASK_PRIORITY: usize = 2;

const TASK_MARK: usize = 3;

const TASK_COPYIN: usize = 4;

const TASK_EXECUTION: usize = 8;

const TASK_COPYOUT: usize = 12;

// Of a release, and of a release skipped.
const RELEASE_TASK: usize = 1;

const RELEASE_TIME: usize = 2;

const SPACING_TASK: usize = 1;

const SPACING_TICKS: usize = 2;

const JOB_TASK: usize = 1;

const JOB_RELEASE: usize = 2;

const JOB_START: usize = 10;

const JOB_COMPLETION: usize = 18;

const JOB_BLOCKED: usize = 26;

const INTERVAL_BEGIN: usize = 1;

const INTERVAL_END: usize = 9;

const INTERVAL_HALF: usize = 17;

const INTERVAL_TASK: usize = 18;

const INTERVAL_WORK: usize = 19;

const INTERVAL_COPIEDOUT: usize = 20;

const INTERVAL_CHOSEN: usize = 21;

const INTERVAL_FATE: usize = 22;

const INTERVAL_PROMOTED: usize = 23;

// Kind 1: a task's number, priority and mark, and the lengths of its copy-in (L), execution (C) and copy-out (U).
#[derive(Clone, Copy)]
pub struct TaskParameters {
    pub number: u8,
    pub priority: u8,
    pub mark: u8,
    pub copyin: u32,
    pub execution: u32,
    pub copyout: u32,
}

// Kind 2: a release of a task.
#[derive(Clone, Copy)]
pub struct Release {
    pub task: u8,
    pub time: u64,
}

// Kind 3: the spacing of a task's releases, in ticks.
#[derive(Clone, Copy)]
pub struct Spacing {
    pub task: u8,
    pub ticks: u32,
}

// An entry of the input taken apart.
#[derive(Clone, Copy)]
pub enum Entry {
    TaskEntry(TaskParameters),
    ReleaseEntry(Release),
    SpacingEntry(Spacing),
}

// Kind 16: a job done.
#[derive(Clone, Copy)]
pub struct JobEntry {
    pub task: u8,
    pub release: u64,
    pub start: u64,
    pub completion: u64,
    pub blocked: u8,
}

// Kind 17: an interval; `task` is the processor's.
#[derive(Clone, Copy)]
pub struct IntervalEntry {
    pub begin: u64,
    pub end: u64,
    pub half: u8,
    pub task: Option<u8>,
    pub work: u8,
    pub copiedout: Option<u8>,
    pub chosen: Option<u8>,
    pub fate: u8,
    pub promoted: Option<u8>,
}

// An entry of a record taken apart. Kind 18 is a release that was skipped.
#[derive(Clone, Copy)]
pub enum RecordEntry {
    JobDone(JobEntry),
    IntervalEnded(IntervalEntry),
    ReleaseSkipped(Release),
}

// Kind 64 is a call of an instant, with its time and the set of tasks released then, and kind 65 a mark call, with its task and mark;
// 9/13: kind 66 enquires what an instant would do, and kind 67 commits one, with a ticket; 10/13: kind 68 marks a set of tasks.
#[derive(Clone, Copy)]
pub enum CallEntry {
    InstantCall { time: u64, set: u32 },
    MarkCall { task: u8, mark: u8 },
    EnquiryCall { time: u64, set: u32 },
    CommitCall { ticket: u64, time: u64, set: u32 },
    MarksCall { set: u32, mark: u8 },
}

// Why the bytes at a place are no entry: there are fewer than an entry of its kind has, or there is no such kind.
#[derive(Clone, Copy, PartialEq, Eq)]
pub enum Unreadable {
    CutShort,
    OtherKind,
}

impl Unreadable {
    // Document 01's number.
    pub fn number(self) -> u8
        ensures { result ≡ unreadable_number self }
    {
        match self {
            Unreadable::CutShort => 1,
            Unreadable::OtherKind => 2,
        }
    }
}

// The task of the entry at the front. One test of the slice's length, by the caller, serves all its bytes.
fn front_task(rest: &[u8]) -> TaskParameters
    requires { entries.size 1 ≤ length rest.now }
    ensures { result ≡ entries.task_at rest.now 0 }
{
    TaskParameters {
        number: words::get_u8(rest, TASK_NUMBER),
        priority: words::get_u8(rest, TASK_PRIORITY),
        mark: words::get_u8(rest, TASK_MARK),
        copyin: words::get_u32(rest, TASK_COPYIN),
        execution: words::get_u32(rest, TASK_EXECUTION),
        copyout: words::get_u32(rest, TASK_COPYOUT),
    }
}

// The task of the release entry at the front: one field alone, for whoever has tested that the entry is there.
#[tactic(auto, unfolding(crate::specs::Entries::release_at))]
pub fn release_task(rest: &[u8]) -> u8
    ensures { result ≡ (entries.release_at rest.now 0).task }
{
    words::get_u8(rest, RELEASE_TASK)
}

// And its time.
#[tactic(auto, unfolding(crate::specs::Entries::release_at))]
pub fn release_time(rest: &[u8]) -> u64
    ensures { result ≡ (entries.release_at rest.now 0).time }
{
    words::get_u64(rest, RELEASE_TIME)
}

// The release of the entry at the front, also where it was skipped.
fn front_release(rest: &[u8]) -> Release
    requires { entries.size 2 ≤ length rest.now }
    ensures { result ≡ entries.release_at rest.now 0 }
{
    Release {
        task: release_task(rest),
        time: release_time(rest),
    }
}

// The spacing of the entry at the front.
#[tactic(auto, unfolding(crate::specs::Entries::spacing_at))]
fn front_spacing(rest: &[u8]) -> Spacing
    requires { entries.size 3 ≤ length rest.now }
    ensures { result ≡ entries.spacing_at rest.now 0 }
{
    Spacing {
        task: words::get_u8(rest, SPACING_TASK),
        ticks: words::get_u32(rest, SPACING_TICKS),
    }
}

// Whether the kind byte at `at` is a release's, be the entry whole or cut short.
pub fn is_release(s: &[u8], at: usize) -> bool
    ensures { result ≡ entries.is_release s.now at }
{
    words::get_u8(s, at) == RELEASE_KIND
}

// The entry of an input whose kind byte is at `at`: another kind where it is not 1 to 3, then whether the entry is cut short.
pub fn entry_at(s: &[u8], at: usize) -> Result<Entry, Unreadable>
    ensures { result ≡ entries.entry_at s.now at }
{
    if s.len() < at {
        return Err(Unreadable::OtherKind);
    }
    let rest = &s[at..];
    match words::get_u8(rest, 0) {
        TASK_KIND if TASK_SIZE <= rest.len() => Ok(Entry::TaskEntry(front_task(rest))),
        RELEASE_KIND if RELEASE_SIZE <= rest.len() => Ok(Entry::ReleaseEntry(front_release(rest))),
        SPACING_KIND if SPACING_SIZE <= rest.len() => Ok(Entry::SpacingEntry(front_spacing(rest))),
        TASK_KIND | RELEASE_KIND | SPACING_KIND => Err(Unreadable::CutShort),
        _ => Err(Unreadable::OtherKind), // an input has no others
    }
}

// The task that a byte names.
#[tactic(auto, unfolding(crate::specs::Entries::task_of))]
fn task_of(b: u8) -> Option<u8>
    ensures { result ≡ entries.task_of b }
{
    if b == NO_TASK { None } else { Some(b) }
}

// The job of the entry at the front.
fn front_job(rest: &[u8]) -> JobEntry
    requires { entries.size 16 ≤ length rest.now }
    ensures { result ≡ entries.job_at rest.now 0 }
{
    JobEntry {
        task: words::get_u8(rest, JOB_TASK),
        release: words::get_u64(rest, JOB_RELEASE),
        start: words::get_u64(rest, JOB_START),
        completion: words::get_u64(rest, JOB_COMPLETION),
        blocked: words::get_u8(rest, JOB_BLOCKED),
    }
}

// The interval of the entry at the front.
fn front_interval(rest: &[u8]) -> IntervalEntry
    requires { entries.size 17 ≤ length rest.now }
    ensures { result ≡ entries.interval_at rest.now 0 }
{
    IntervalEntry {
        begin: words::get_u64(rest, INTERVAL_BEGIN),
        end: words::get_u64(rest, INTERVAL_END),
        half: words::get_u8(rest, INTERVAL_HALF),
        task: task_of(words::get_u8(rest, INTERVAL_TASK)),
        work: words::get_u8(rest, INTERVAL_WORK),
        copiedout: task_of(words::get_u8(rest, INTERVAL_COPIEDOUT)),
        chosen: task_of(words::get_u8(rest, INTERVAL_CHOSEN)),
        fate: words::get_u8(rest, INTERVAL_FATE),
        promoted: task_of(words::get_u8(rest, INTERVAL_PROMOTED)),
    }
}

// The entry of a record whose kind byte is at `at`: another kind where it is not 16 to 18, then whether the entry is cut short.
pub fn record_entry_at(s: &[u8], at: usize) -> Result<RecordEntry, Unreadable>
    ensures { result ≡ entries.record_entry_at s.now at }
{
    if s.len() < at {
        return Err(Unreadable::OtherKind);
    }
    let rest = &s[at..];
    match words::get_u8(rest, 0) {
        JOB_KIND if JOB_SIZE <= rest.len() => Ok(RecordEntry::JobDone(front_job(rest))),
        INTERVAL_KIND if INTERVAL_SIZE <= rest.len() => {
            Ok(RecordEntry::IntervalEnded(front_interval(rest)))
        }
        SKIPPED_KIND if SKIPPED_SIZE <= rest.len() => {
            Ok(RecordEntry::ReleaseSkipped(front_release(rest)))
        }
        JOB_KIND | INTERVAL_KIND | SKIPPED_KIND => Err(Unreadable::CutShort),
        _ => Err(Unreadable::OtherKind), // nor has a record
    }
}

// The length of an entry of a record: none of what is no entry, whatever stands for why.
pub fn record_entry_size<E: Copy>(e: Result<RecordEntry, E>) -> usize
    ensures { result ≡ entries.size_unless e }
{
    match e {
        Err(_) => 0,
        Ok(RecordEntry::JobDone(_)) => JOB_SIZE,
        Ok(RecordEntry::IntervalEnded(_)) => INTERVAL_SIZE,
        Ok(RecordEntry::ReleaseSkipped(_)) => SKIPPED_SIZE,
    }
}

// The byte of a task that may be there.
fn task_byte(t: Option<u8>) -> u8
    ensures { result ≡ entries.task_byte t }
{
    match t {
        None => NO_TASK,
        Some(n) => n,
    }
}

// One byte at a place of an entry.
#[tactic(auto, using(crate::proofs::Laws::put_byte_there))]
fn put_byte(out: &mut [u8], at: usize, b: u8)
    requires { at + 1 ≤ length out.old }
    ensures { out.new ≡ laid at (b ∷ []) out.old }
{
    words::put_u8(&mut out[at..], b);
}

// A time at a place of an entry.
#[tactic(auto, using(crate::proofs::Laws::put_there))]
fn put_time(out: &mut [u8], at: usize, v: u64)
    requires { at + 8 ≤ length out.old }
    ensures { out.new ≡ laid at (bytes_of 8 v) out.old }
{
    words::put_u64(&mut out[at..], v);
}

// An entry of a kind, a task and a time in the front of `out`, and its length; nothing and 0 where it does not fit, here and below.
#[tactic(auto, unfolding(words::specs::Words::bytes_of))]
fn put_timed(out: &mut [u8], kind: u8, task: u8, time: u64) -> usize
    ensures { Put (kind ∷ task ∷ bytes_of 8 time) out.old result out.new }
{
    if out.len() < RELEASE_SIZE {
        return 0;
    }
    put_byte(out, 0, kind);
    put_byte(out, RELEASE_TASK, task);
    put_time(out, RELEASE_TIME, time);
    RELEASE_SIZE
}

// Kind 2.
#[tactic(auto, unfolding(crate::specs::Entries::release_bytes))]
pub fn put_release(out: &mut [u8], r: Release) -> usize
    ensures { Put (entries.release_bytes r) out.old result out.new }
{
    put_timed(out, RELEASE_KIND, r.task, r.time)
}

// Kind 18.
#[tactic(auto, unfolding(crate::specs::Entries::skipped_bytes))]
pub fn put_skipped(out: &mut [u8], task: u8, time: u64) -> usize
    ensures { Put (entries.skipped_bytes task time) out.old result out.new }
{
    put_timed(out, SKIPPED_KIND, task, time)
}

// Kind 16.
pub fn put_job(out: &mut [u8], e: JobEntry) -> usize
    ensures { Put (entries.job_bytes e) out.old result out.new }
{
    if out.len() < JOB_SIZE {
        return 0;
    }
    put_byte(out, 0, JOB_KIND);
    put_byte(out, JOB_TASK, e.task);
    put_time(out, JOB_RELEASE, e.release);
    put_time(out, JOB_START, e.start);
    put_time(out, JOB_COMPLETION, e.completion);
    put_byte(out, JOB_BLOCKED, e.blocked);
    JOB_SIZE
}

// The last seven bytes of kind 17.
fn put_choices(out: &mut [u8], e: IntervalEntry)
    requires { entries.size 17 ≤ length out.old }
    ensures { out.new ≡ laid 17 (entries.choice_bytes e) out.old }
{
    let task = e.task;
    let copiedout = e.copiedout;
    let chosen = e.chosen;
    let promoted = e.promoted;
    put_byte(out, INTERVAL_HALF, e.half);
    put_byte(out, INTERVAL_TASK, task_byte(task));
    put_byte(out, INTERVAL_WORK, e.work);
    put_byte(out, INTERVAL_COPIEDOUT, task_byte(copiedout));
    put_byte(out, INTERVAL_CHOSEN, task_byte(chosen));
    put_byte(out, INTERVAL_FATE, e.fate);
    put_byte(out, INTERVAL_PROMOTED, task_byte(promoted));
}

// Kind 17.
#[tactic(auto, unfolding(crate::specs::Entries::interval_bytes, words::specs::Words::bytes_of, crate::specs::Entries::choice_bytes))]
pub fn put_interval(out: &mut [u8], e: IntervalEntry) -> usize
    ensures { Put (entries.interval_bytes e) out.old result out.new }
{
    if out.len() < INTERVAL_SIZE {
        return 0;
    }
    put_byte(out, 0, INTERVAL_KIND);
    put_time(out, INTERVAL_BEGIN, e.begin);
    put_time(out, INTERVAL_END, e.end);
    put_choices(out, e);
    INTERVAL_SIZE
}
