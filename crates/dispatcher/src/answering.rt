// What occurred, read back from the words that tell it (specs/Telling).
ghost use Rattle.std.specs.Prelude.{◌≡◌, ◌%◌};
ghost use Rattle.dispatcher.specs.Telling as telling;

use crate::telling::WORDS;
use entries::{IntervalEntry, JobEntry};
use rules::{Closing, Occurred};

fn low(x: u64) -> u8
    ensures { result ≡ x % 256 }
{
    (x % 256) as u8
}

fn task_in(word: u64) -> Option<u8>
    ensures { result ≡ telling.task_in word }
{
    if word < 256 {
        return Some(word as u8);
    }
    None
}

fn job_in(told: &[u64; WORDS]) -> JobEntry
    ensures { result ≡ telling.job_in told.now }
{
    JobEntry {
        task: low(told[8]),
        release: told[5],
        start: told[6],
        completion: told[7],
        blocked: low(told[9]),
    }
}

#[tactic(auto, unfolding(crate::specs::Telling::interval_in))]
fn interval_in(told: &[u64; WORDS]) -> IntervalEntry
    ensures { result ≡ telling.interval_in told.now }
{
    IntervalEntry {
        begin: told[10],
        end: told[11],
        half: low(told[12]),
        task: task_in(told[13]),
        work: low(told[14]),
        copiedout: task_in(told[15]),
        chosen: task_in(told[16]),
        fate: low(told[17]),
        promoted: task_in(told[18]),
    }
}

fn done_in(told: &[u64; WORDS]) -> Option<JobEntry>
    ensures { result ≡ telling.done_in told.now }
{
    if told[2] == 0 {
        return None;
    }
    Some(job_in(told))
}

fn closing_in(told: &[u64; WORDS]) -> Closing
    ensures { result ≡ telling.closing_in told.now }
{
    let number = told[3];
    if number == 0 {
        return Closing::Unclosed;
    }
    if number == 1 {
        return Closing::BeforeReleases(interval_in(told));
    }
    Closing::AfterReleases(interval_in(told))
}

fn due_in(told: &[u64; WORDS]) -> Option<u64>
    ensures { result ≡ telling.due_in told.now }
{
    if told[4] == 0 {
        return None;
    }
    Some(told[0])
}

#[tactic(auto, unfolding(crate::specs::Telling::occurred_in))]
pub fn occurred_in(told: &[u64; WORDS]) -> Occurred
    ensures { result ≡ telling.occurred_in told.now }
{
    Occurred {
        done: done_in(told),
        closed: closing_in(told),
        skipped: (told[1] % 4294967296) as u32,
        due: due_in(told),
    }
}
