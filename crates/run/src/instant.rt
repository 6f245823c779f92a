// One instant of a run over the arrays that keep a dispatcher, each changed where it is, with its entries put into the lent slice as things
// occur. The test of an interval's end stands twice: as one function with two callers it is not inlined.
ghost use Rattle.std.specs.Prelude.{◌≤◌, ◌<◌, ◌-◌, ◌^◌};
ghost use Rattle.rules.specs.Kept.{kept, by_task, beside};
ghost use Rattle.run.specs.Advance.{CopyOutEnds, EndsBefore, EndsAfter, Advances};

use crate::Advanced;
use crate::putting::{interval_at, job_at, skips_at};
use crate::releases::{gather, next_tick};
use rules::{at, codes};
use table::Columns;

// Step a of the copy-out: the job that is done.
fn end_copyout(
    t: u64,
    times: &at::Times,
    sets: &mut at::Sets,
    codes: &mut at::Codes,
    release: &[u64; 32],
    blocked: &[u8; 32],
    out: &mut [u8],
) -> usize
    ensures { CopyOutEnds t times.now release.now blocked.now
        sets.old codes.old out.old result sets.new codes.new out.new }
{
    if rules::copyout_ends(t, times, codes) {
        let end = job_at(
            out,
            0,
            rules::completed_job(t, times, codes, release, blocked),
        );
        rules::copied_out(sets, codes);
        return end;
    }
    0
}

// Step b: the interval that ends before the releases.
fn end_before(
    t: u64,
    times: &mut at::Times,
    sets: &mut at::Sets,
    codes: &mut at::Codes,
    priority: &[u8; 32],
    release: &[u64; 32],
    blocked: &mut [u8; 32],
    out: &mut [u8],
    place: usize,
) -> usize
    requires { place ≤ 1000 }
    ensures { EndsBefore t place priority.now release.now
        (kept times.old sets.old codes.old) blocked.old out.old result
        (kept times.new sets.new codes.new) blocked.new out.new }
{
    if rules::is_over(codes) {
        let p = rules::promoted(sets, codes, priority, release);
        rules::count_blocked(sets, codes, priority, blocked);
        let end = interval_at(out, place, rules::interval_entry(t, p, times, codes));
        rules::close(p, times, sets, codes);
        return end;
    }
    place
}

// Steps e and f: the choice, and the interval that ends after the releases. Where none is open there is nothing to do.
fn end_after<'a>(
    t: u64,
    times: &mut at::Times,
    sets: &mut at::Sets,
    codes: &mut at::Codes,
    priority: &'a [u8; 32],
    release: &[u64; 32],
    columns: &'a Columns,
    blocked: &mut [u8; 32],
    out: &mut [u8],
    place: usize,
) -> usize
    requires { place ≤ 1000 }
    ensures { EndsAfter t place priority.now release.now columns.now
        (kept times.old sets.old codes.old) blocked.old out.old result
        (kept times.new sets.new codes.new) blocked.new out.new }
{
    if codes[at::COPYIN] == codes::NO_INTERVAL {
        return place;
    }
    rules::choose(t, times, sets, codes, columns, priority, release);
    if rules::is_over(codes) {
        let p = rules::promoted(sets, codes, priority, release);
        rules::count_blocked(sets, codes, priority, blocked);
        let end = interval_at(out, place, rules::interval_entry(t, p, times, codes));
        rules::close(p, times, sets, codes);
        return end;
    }
    place
}

// The next instant of a run, steps a to g: `rest` has the releases that are left. The entries that it leaves are put into the front of
// `out`, as far as they fit whole. The table's arrays are lent together, and so for one lifetime.
pub fn advance<'a>(
    rest: &[u8],
    times: &mut at::Times,
    sets: &mut at::Sets,
    codes: &mut at::Codes,
    priority: &'a [u8; 32],
    columns: &'a Columns,
    release: &mut [u64; 32],
    blocked: &mut [u8; 32],
    waits: &mut [u64; 32],
    out: &mut [u8],
) -> Advanced
    ensures { Advances rest.now
        (kept times.old sets.old codes.old)
        (beside priority.now columns.now
        (by_task release.old blocked.old waits.old))
        out.old result
        (kept times.new sets.new codes.new)
        (beside priority.now columns.now (by_task release.new blocked.new waits.new))
        out.new }
{
    let t = next_tick(rest, times, codes);
    if t == u64::MAX {
        return Advanced {
            time: t,
            read: 0,
            size: 0,
        };
    }
    let batch = gather(rest, t);
    let soon = rules::too_soon(t, batch.set, sets, columns, release, waits);
    rules::stamp(t, times, sets, codes);
    let done = end_copyout(t, times, sets, codes, release, blocked, out);
    rules::others_end(t, times, codes, columns);
    let first = end_before(t, times, sets, codes, priority, release, blocked, out, done);
    let passing = sets::difference(batch.set, soon);
    let r = rules::released(sets[at::PENDING], sets[at::WAITING], passing);
    let skipped = skips_at(out, first, sets::union(soon, r.skipped), t);
    let held = rules::held_over(codes, r.taken);
    rules::take_releases(t, r, sets, codes, priority, release, blocked, waits);
    let size = end_after(
        t, times, sets, codes, priority, release, columns, blocked, out, skipped,
    );
    rules::begin_interval(t, held, times, sets, codes, columns, priority, release);
    Advanced {
        time: t,
        read: batch.read,
        size,
    }
}
