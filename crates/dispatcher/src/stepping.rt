// Steps a to g over the arrays that keep a dispatcher, each changed where it is. What occurs is told as it occurs: an answer that is made
// first and told afterwards costs as much again. The test of an interval's end stands twice: as one function with two callers it is not
// inlined. Which releases come too soon is asked first of all, since nothing before step c changes it: amid the steps it takes registers
// from them.
ghost use Rattle.rules.specs.Kept.{kept, by_task, beside};
ghost use Rattle.dispatcher.specs.Promises.{EndsCopyOut, EndsBefore, EndsAfter, StepsTo};

use crate::telling::{CLOSED, DONE, WORDS, tell_due, tell_interval, tell_job, tell_skipped};
use rules::{at, codes};
use table::Columns;

// On which side of the releases of its instant an interval ended: numbers, since C is told them.
const BEFORE: u64 = 1;

const AFTER: u64 = 2;

fn end_copyout(
    t: u64,
    times: &at::Times,
    sets: &mut at::Sets,
    codes: &mut at::Codes,
    release: &[u64; 32],
    blocked: &[u8; 32],
    told: &mut [u64; WORDS],
)
    ensures { EndsCopyOut t release.now blocked.now times.now
        sets.old codes.old told.old sets.new codes.new told.new }
{
    if rules::copyout_ends(t, times, codes) {
        tell_job(
            rules::completed_job(t, times, codes, release, blocked),
            told,
        );
        rules::copied_out(sets, codes);
        return;
    }
    told[DONE] = 0;
}

fn end_before(
    t: u64,
    times: &mut at::Times,
    sets: &mut at::Sets,
    codes: &mut at::Codes,
    priority: &[u8; 32],
    release: &[u64; 32],
    blocked: &mut [u8; 32],
    told: &mut [u64; WORDS],
)
    ensures { EndsBefore t priority.now release.now
        (kept times.old sets.old codes.old) blocked.old told.old
        (kept times.new sets.new codes.new) blocked.new told.new }
{
    if rules::is_over(codes) {
        let p = rules::promoted(sets, codes, priority, release);
        rules::count_blocked(sets, codes, priority, blocked);
        tell_interval(t, p, times, codes, told);
        rules::close(p, times, sets, codes);
        told[CLOSED] = BEFORE;
        return;
    }
    told[CLOSED] = 0;
}

fn end_after(
    t: u64,
    times: &mut at::Times,
    sets: &mut at::Sets,
    codes: &mut at::Codes,
    priority: &[u8; 32],
    release: &[u64; 32],
    columns: &Columns,
    blocked: &mut [u8; 32],
    told: &mut [u64; WORDS],
)
    ensures { EndsAfter t priority.now release.now columns.now
        (kept times.old sets.old codes.old) blocked.old told.old
        (kept times.new sets.new codes.new) blocked.new told.new }
{
    if codes[at::COPYIN] == codes::NO_INTERVAL {
        return;
    }
    rules::choose(t, times, sets, codes, columns, priority, release);
    if rules::is_over(codes) {
        let p = rules::promoted(sets, codes, priority, release);
        rules::count_blocked(sets, codes, priority, blocked);
        tell_interval(t, p, times, codes, told);
        rules::close(p, times, sets, codes);
        told[CLOSED] = AFTER;
    }
}

pub fn steps<'a>(
    t: u64,
    set: u32,
    times: &mut at::Times,
    sets: &mut at::Sets,
    codes: &mut at::Codes,
    priority: &'a [u8; 32],
    columns: &'a Columns,
    release: &mut [u64; 32],
    blocked: &mut [u8; 32],
    waits: &mut [u64; 32],
    told: &mut [u64; WORDS],
)
    ensures { StepsTo t set
        (kept times.old sets.old codes.old)
        (beside priority.now columns.now (by_task release.old blocked.old waits.old))
        told.old
        (kept times.new sets.new codes.new)
        (beside priority.now columns.now (by_task release.new blocked.new waits.new))
        told.new }
{
    let soon = rules::too_soon(t, set, sets, columns, release, waits);
    rules::stamp(t, times, sets, codes);
    end_copyout(t, times, sets, codes, release, blocked, told);
    rules::others_end(t, times, codes, columns);
    end_before(t, times, sets, codes, priority, release, blocked, told);
    let passing = sets::difference(set, soon);
    let r = rules::released(sets[at::PENDING], sets[at::WAITING], passing);
    tell_skipped(sets::union(soon, r.skipped), told);
    let held = rules::held_over(codes, r.taken);
    rules::take_releases(t, r, sets, codes, priority, release, blocked, waits);
    end_after(
        t, times, sets, codes, priority, release, columns, blocked, told,
    );
    rules::begin_interval(t, held, times, sets, codes, columns, priority, release);
    tell_due(times, codes, told);
}
