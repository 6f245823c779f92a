// a. Phases that end now end. A copy-out's end completes its job.
ghost use Rattle.std.specs.Prelude.{◌≡◌, get_or};
ghost use Rattle.rules.specs.Kept.{copyout_ends};
ghost use Rattle.rules.specs.Steps.{CompletedJob, CopiedOutAt, CopyInSet, ProcessorTo, OthersEndAt};

use crate::arrays::value_of;
use crate::times::later;
use crate::{at, codes};
use entries::JobEntry;
use table::Columns;

pub fn copyout_ends(t: u64, times: &at::Times, codes: &at::Codes) -> bool
    ensures { result ≡ copyout_ends t times.now codes.now }
{
    codes[at::COPYIN] != codes::NO_INTERVAL
        && codes[at::COPYOUT] == codes::COPYING_OUT
        && times[at::OUTUNTIL] == t
}

// The job whose copy-out ends now.
pub fn completed_job(
    t: u64,
    times: &at::Times,
    codes: &at::Codes,
    release: &[u64; 32],
    blocked: &[u8; 32],
) -> JobEntry
    ensures { CompletedJob t times.now codes.now release.now blocked.now result }
{
    let task = codes[at::OUTTASK];
    JobEntry {
        task,
        release: value_of(release, task, 0),
        start: times[at::OUTSTART],
        completion: t,
        blocked: value_of(blocked, task, 0),
    }
}

// It is pending no more.
pub fn copied_out(sets: &mut at::Sets, codes: &mut at::Codes)
    ensures { CopiedOutAt sets.old codes.old sets.new codes.new }
{
    sets[at::PENDING] = sets::remove(sets[at::PENDING], codes[at::OUTTASK]);
    codes[at::COPYOUT] = codes::COPIED_OUT;
}

fn copyin_ends(kind: u8, t: u64, times: &at::Times, codes: &mut at::Codes)
    requires { kind ≡ get_or codes.old 6 0 }
    ensures { CopyInSet t times.now codes.old codes.new }
{
    if kind == codes::COPYING {
        if times[at::INUNTIL] == t {
            codes[at::COPYIN] = codes::LOADED;
        }
    }
}

// The processor's own copy-in is followed by the execution.
fn processor_ends(t: u64, times: &mut at::Times, codes: &mut at::Codes, columns: &Columns)
    ensures { ProcessorTo t columns.now
        times.old codes.old times.new codes.new }
{
    if times[at::UNTIL] != t {
        return;
    }
    let kind = codes[at::PROCESSOR];
    if kind == codes::COPYING_IN {
        let until = later(t, table::execution_length(columns, codes[at::TASK]));
        codes[at::PROCESSOR] = codes::EXECUTING;
        times[at::START] = t;
        times[at::UNTIL] = until;
        return;
    }
    if kind == codes::EXECUTING {
        codes[at::PROCESSOR] = codes::FINISHED;
    }
}

// The other two phases, where no copy-out ends now, or its job has been completed.
pub fn others_end(t: u64, times: &mut at::Times, codes: &mut at::Codes, columns: &Columns)
    ensures { OthersEndAt t columns.now
        times.old codes.old times.new codes.new }
{
    let kind = codes[at::COPYIN];
    if kind == codes::NO_INTERVAL {
        return;
    }
    copyin_ends(kind, t, times, codes);
    processor_ends(t, times, codes, columns);
}
