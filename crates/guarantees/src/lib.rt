// Demand 3, for every list of instants, mark calls, enquiries and commits: its statement is in specs/, its proof in proofs/. Whoever
// opens a dispatcher here holds it.
#![tactic(auto)]

mod planning;

ghost use Rattle.guarantees.specs.Opened.{OpenedWithClaim};

use dispatcher::Dispatcher;
pub use planning::{completes_after, longest_interval};
use table::Refusal;

// A dispatcher from the task entries, or the first refusal. Of every list of calls from a state that is handed out here the claim holds.
pub fn open(s: &[u8]) -> Result<Dispatcher, Refusal>
    ensures { OpenedWithClaim s.now result }
{
    dispatcher::open(s)
}
