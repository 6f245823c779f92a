// g. If no interval is open and some job is loaded, promoted, ready or waiting for copy-out, an interval begins.
ghost use Rattle.std.specs.Prelude.{◌≡◌, ◌-◌};
ghost use Rattle.rules.specs.Kept.{kept};
ghost use Rattle.rules.specs.Steps.{WantedAt, SetTo, OpenedAt, BegunAt};

use crate::order::first;
use crate::step_e::make_choice;
use crate::times::later;
use crate::{at, codes};
use table::Columns;

fn is_wanted(sets: &at::Sets, codes: &at::Codes) -> bool
    ensures { WantedAt sets.now codes.now result }
{
    let ready = sets[at::READY];
    let copyout = codes[at::COPYOUT];
    let work = codes[at::WORK];
    ready != 0 || copyout != codes::NO_COPYOUT || work != codes::NO_WORK
}

// R5: the processor copies in and then executes the promoted job; else it executes the loaded one; else it idles.
fn set_processor(
    work: u8,
    n: u8,
    t: u64,
    times: &mut at::Times,
    codes: &mut at::Codes,
    columns: &Columns,
)
    ensures { SetTo work n t columns.now
        times.old codes.old times.new codes.new }
{
    if work == codes::NO_WORK {
        codes[at::PROCESSOR] = codes::IDLE;
        times[at::UNTIL] = t;
        return;
    }
    if work == codes::EXECUTE {
        let until = later(t, table::execution_length(columns, n));
        codes[at::PROCESSOR] = codes::EXECUTING;
        times[at::UNTIL] = until;
        return;
    }
    let until = later(t, table::copyin_length(columns, n));
    codes[at::WORK] = codes::COPY_IN_AND_EXECUTE;
    codes[at::PROCESSOR] = codes::COPYING_IN;
    times[at::UNTIL] = until;
}

// R1: the halves swap.
fn swapped(half: u8) -> u8
    ensures { result ≡ 1 - half }
{
    if half == 0 { 1 } else { 0 }
}

// `taken` are the releases that belong to the interval. The engine copies out the job executed in the interval before; without one it is
// free, which is the answer.
fn open_interval(
    t: u64,
    taken: u32,
    times: &mut at::Times,
    sets: &mut at::Sets,
    codes: &mut at::Codes,
    columns: &Columns,
) -> bool
    ensures { OpenedAt t taken columns.now
        (kept times.old sets.old codes.old)
        (kept times.new sets.new codes.new) result }
{
    let work = codes[at::WORK];
    let n = codes[at::TASK];
    let half = codes[at::HALF];
    let copyout = codes[at::COPYOUT];
    let out = codes[at::OUTTASK];
    let candidates = sets::intersection(taken, sets[at::MARKED]);
    codes[at::HALF] = swapped(half);
    codes[at::COPYIN] = codes::UNCHOSEN;
    sets[at::CANDIDATES] = candidates;
    times[at::BEGIN] = t;
    times[at::START] = t;
    set_processor(work, n, t, times, codes, columns);
    if copyout == codes::NO_COPYOUT {
        times[at::OUTUNTIL] = t;
        return true;
    }
    let outuntil = later(t, table::copyout_length(columns, out));
    codes[at::COPYOUT] = codes::COPYING_OUT;
    times[at::OUTUNTIL] = outuntil;
    false
}

// Where the engine is free the choice is made now.
pub fn begin_interval(
    t: u64,
    taken: u32,
    times: &mut at::Times,
    sets: &mut at::Sets,
    codes: &mut at::Codes,
    columns: &Columns,
    priority: &[u8; 32],
    release: &[u64; 32],
)
    ensures { BegunAt t taken priority.now release.now columns.now
        (kept times.old sets.old codes.old)
        (kept times.new sets.new codes.new) }
{
    if codes[at::COPYIN] != codes::NO_INTERVAL {
        return;
    }
    if !is_wanted(sets, codes) {
        return;
    }
    if open_interval(t, taken, times, sets, codes, columns) {
        let n = first(priority, release, sets[at::READY]);
        make_choice(n, t, times, sets, codes, columns);
    }
}
