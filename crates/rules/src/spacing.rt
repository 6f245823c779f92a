// c. 8/13: the releases that come sooner than the spacing after their task's last release taken or set waiting, by original time.
ghost use Rattle.std.specs.Prelude.{◌≡◌, Some};
ghost use Rattle.rules.specs.Instant as instant;
ghost use Rattle.rules.specs.Steps.{SoonAt, TooSoonAt};

use crate::arrays::value_of;
use crate::at;
use table::Columns;

// Whether a release comes sooner than the spacing after the last one; exactly one spacing later passes.
fn comes_sooner(t: u64, spacing: u32, last: u64) -> bool
    ensures { result ≡ instant.comes_sooner t spacing (Some last) }
{
    if t < last {
        return 0 < spacing;
    }
    t - last < u64::from(spacing)
}

// Whether that of task `n` does: by the one that waits, else by the task's last job, where there was one.
fn is_too_soon(
    t: u64,
    n: u8,
    sets: &at::Sets,
    columns: &Columns,
    release: &[u64; 32],
    waits: &[u64; 32],
) -> bool
    ensures { SoonAt t n sets.now columns.now release.now waits.now result }
{
    let spacing = table::spacing(columns, n);
    if sets::contains(sets[at::WAITING], n) {
        return comes_sooner(t, spacing, value_of(waits, n, 0));
    }
    if sets::contains(sets[at::BEFORE], n) {
        return comes_sooner(t, spacing, value_of(release, n, 0));
    }
    false
}

// The releases of a set that come too soon. Where none of its tasks has a spacing there is nothing to look at.
pub fn too_soon(
    t: u64,
    set: u32,
    sets: &at::Sets,
    columns: &Columns,
    release: &[u64; 32],
    waits: &[u64; 32],
) -> u32
    ensures { TooSoonAt t set sets.now columns.now release.now waits.now result }
{
    let spaced = sets::intersection(set, sets[at::SPACED]);
    let mut soon: u32 = 0;
    for n in sets::members(spaced) {
        if is_too_soon(t, n, sets, columns, release, waits) {
            soon = sets::insert(soon, n);
        }
    }
    soon
}
