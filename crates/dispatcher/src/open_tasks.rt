// Opening a dispatcher from a head alone: 12, then entry by entry 2, 1, and 3, 4, 6, 7 of a task or 8, 19 of a spacing. A release entry
// is refused by 2.
ghost use Rattle.std.specs.Prelude.{◌≡◌, IfOk};
ghost use Rattle.rules.specs.Calls as calls;
ghost use Rattle.dispatcher.specs.Dispatcher.{state_of, opening_of};

use crate::Dispatcher;
use entries::limits;
use rules::codes;
use table::{Refusal, Table};

// No task has a job, no release waits, and the first interval gives the processor half 0.
pub fn opened(table: Table, marked: u32) -> Dispatcher
    ensures { (state_of result ≡ calls.opened table marked) × (result.ticket ≡ 0) }
{
    let present = table.present;
    let spaced = table.spaced;
    let priority = table.priority;
    let columns = table.columns;
    Dispatcher {
        ticket: 0,
        times: [0; 7],
        release: [0; limits::TASKS],
        waits: [0; limits::TASKS],
        sets: [marked, 0, 0, 0, present, 0, spaced, 0],
        columns,
        codes: [codes::NO_HALF, 0, 0, 0, 0, 0, codes::NO_INTERVAL, 0, 0],
        priority,
        blocked: [0; limits::TASKS],
    }
}

// A dispatcher from a head alone, or the first refusal.
#[tactic(auto, unfolding(rules::specs::Calls::opening))]
pub fn open(s: &[u8]) -> Result<Dispatcher, Refusal>
    ensures opens { opening_of result ≡ calls.opening s.now }
    ensures ticket { IfOk result (λ d. d.ticket ≡ 0) }
{
    let head = heads::head_alone(s)?;
    Ok(opened(head.table, head.marked))
}
