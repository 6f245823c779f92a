// c. The releases of this instant are taken, wait or are skipped. Those that are taken belong to the open interval, else to the one that
// step g begins.
ghost use Rattle.std.specs.Prelude.{◌≡◌};
ghost use Rattle.rules.specs.Instant as instant;
ghost use Rattle.rules.specs.Steps.{HeldOverAt};

use crate::{ReleaseFates, at, codes};

// What becomes of the releases of a set, by the tasks with a pending job and those with a waiting release.
#[tactic(auto, using(crate::proofs::Releases::same_set), unfolding(crate::specs::Instant::released))]
pub fn released(pending: u32, waiting: u32, set: u32) -> ReleaseFates
    ensures { result ≡ instant.released pending waiting set }
{
    let resumed = sets::difference(waiting, pending);
    let before = sets::difference(waiting, resumed);
    let found = sets::intersection(set, sets::union(pending, resumed));
    ReleaseFates {
        taken: sets::difference(sets::union(set, waiting), pending),
        deferred: sets::difference(found, before),
        skipped: sets::intersection(set, before),
    }
}

// The releases that belong to the interval that step g begins.
#[tactic(auto, unfolding(crate::specs::Registers::phase_in))]
pub fn held_over(codes: &at::Codes, taken: u32) -> u32
    ensures { HeldOverAt codes.now taken result }
{
    if codes[at::COPYIN] == codes::NO_INTERVAL {
        return taken;
    }
    0
}
