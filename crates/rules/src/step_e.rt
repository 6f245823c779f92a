// e. If an interval is open, the engine is free and the choice has not been made, it is made: the highest ready job begins
// copy-in, or none does (R2). It is made once an interval.
ghost use Rattle.rules.specs.Kept.{kept};
ghost use Rattle.rules.specs.Steps.{MadeChoice, ChosenAt};

use crate::order::first;
use crate::times::later;
use crate::{at, codes};
use table::Columns;

// The first of the ready jobs is n's, or there is none.
pub fn make_choice(
    n: u8,
    t: u64,
    times: &mut at::Times,
    sets: &mut at::Sets,
    codes: &mut at::Codes,
    columns: &Columns,
)
    ensures { MadeChoice n t columns.now
        (kept times.old sets.old codes.old)
        (kept times.new sets.new codes.new) }
{
    if n < codes::NO_TASK {
        let inuntil = later(t, table::copyin_length(columns, n));
        sets[at::READY] = sets::remove(sets[at::READY], n);
        codes[at::COPYIN] = codes::COPYING;
        codes[at::INTASK] = n;
        times[at::INUNTIL] = inuntil;
        return;
    }
    codes[at::COPYIN] = codes::NONE_CHOSEN;
}

pub fn choose(
    t: u64,
    times: &mut at::Times,
    sets: &mut at::Sets,
    codes: &mut at::Codes,
    columns: &Columns,
    priority: &[u8; 32],
    release: &[u64; 32],
)
    ensures { ChosenAt t priority.now release.now columns.now
        (kept times.old sets.old codes.old)
        (kept times.new sets.new codes.new) }
{
    if codes[at::COPYIN] != codes::UNCHOSEN {
        return;
    }
    if codes[at::COPYOUT] == codes::COPYING_OUT {
        return;
    }
    let n = first(priority, release, sets[at::READY]);
    make_choice(n, t, times, sets, codes, columns);
}
