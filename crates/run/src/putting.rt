// The entries of an instant put into the front of a lent slice one behind the other, as far as they fit whole. Each function is handed
// the place behind the entries before, and answers the place behind its own, whether it fits or not: so the length of a record is found
// with no room at all.
ghost use Rattle.std.specs.Prelude.{[], ◌∷◌, ◌≤◌};
ghost use Rattle.rules.specs.Entries.{skipped_entries};
ghost use Rattle.run.specs.Types.{JobDone, IntervalEnded, ReleaseSkipped};
ghost use Rattle.run.specs.Putting.{Puts};

use entries::{INTERVAL_SIZE, IntervalEntry, JOB_SIZE, JobEntry, SKIPPED_SIZE};

pub fn job_at(out: &mut [u8], at: usize, e: JobEntry) -> usize
    requires { at ≤ 1000 }
    ensures { Puts at (JobDone e ∷ []) out.old result out.new }
{
    if at <= out.len() {
        entries::put_job(&mut out[at..], e);
    }
    at + JOB_SIZE
}

pub fn interval_at(out: &mut [u8], at: usize, e: IntervalEntry) -> usize
    requires { at ≤ 1000 }
    ensures { Puts at (IntervalEnded e ∷ []) out.old result out.new }
{
    if at <= out.len() {
        entries::put_interval(&mut out[at..], e);
    }
    at + INTERVAL_SIZE
}

fn skipped_at(out: &mut [u8], at: usize, task: u8, time: u64) -> usize
    requires { at ≤ 1000 }
    ensures { Puts at (ReleaseSkipped (record { task = task; time = time }) ∷ []) out.old result out.new }
{
    if at <= out.len() {
        entries::put_skipped(&mut out[at..], task, time);
    }
    at + SKIPPED_SIZE
}

// The skipped releases by rising task number.
pub fn skips_at(out: &mut [u8], start: usize, set: u32, time: u64) -> usize
    requires { start ≤ 100 }
    ensures { Puts start (skipped_entries 32 set time) out.old result out.new }
{
    let mut at = start;
    for n in sets::members(set) {
        at = skipped_at(out, at, n, time);
    }
    at
}
