// A run in pieces: the one loop over its instants, and those over its pieces: for whoever takes them, and for a closure.
#![tactic(auto)]

ghost use Rattle.std.specs.Prelude.{◌≡◌, ◌≤◌, ◌<◌, List, ℕ, length, Ok, Err, IfOk, IfErr, IsOk, Result, ⊤};
ghost use Rattle.std.specs.Fn.{CalledAt};
ghost use Rattle.entries.specs.Limits.{instant_most};
ghost use Rattle.dispatcher.specs.Dispatcher.{state_of};
ghost use Rattle.run.specs.Listed.{releases_at};
ghost use Rattle.pieces.specs.Pieces.{Makes, HandsOn, HandsOver, StopsAt};

use dispatcher::Dispatcher;
use entries::limits::INSTANT_MOST;
use run::advance;

#[cfg(test)]
mod tests;

// A piece of a run: the dispatcher that it leaves, how many bytes of the releases were read and of the slice were written, how many
// instants may still be made, and whether the run has come to its end: then none.
#[derive(Clone, Copy)]
pub struct Piece {
    pub state: Dispatcher,
    pub read: usize,
    pub size: usize,
    pub left: usize,
    pub ended: bool,
}

// A piece of a run: from the dispatcher `d`, with the releases in `rest`, as many instants as `budget` allows and as there is room for. It
// stops where fewer bytes are left than one instant can need. The entries are put into the front of `out`, one behind the other.
pub fn next_piece(rest: &[u8], d: Dispatcher, budget: usize, out: &mut [u8]) -> Piece
    ensures { Makes rest.now d budget out.old result out.new }
{
    let mut times = d.times;
    let mut sets = d.sets;
    let mut codes = d.codes;
    let mut release = d.release;
    let mut blocked = d.blocked;
    let mut waits = d.waits;
    let mut read: usize = 0;
    let mut size: usize = 0;
    let mut left = budget;
    let mut ended = false;
    // how many instants are left is part of the answer, and each moves two places by its own lengths
    while left != 0 {
        if out.len() - size < INSTANT_MOST {
            break;
        }
        let x = advance(
            &rest[read..],
            &mut times,
            &mut sets,
            &mut codes,
            &d.priority,
            &d.columns,
            &mut release,
            &mut blocked,
            &mut waits,
            &mut out[size..],
        );
        if x.time == u64::MAX {
            ended = true;
            left = 0;
            break;
        }
        read += x.read;
        size += x.size;
        left -= 1;
    }
    let priority = d.priority;
    let columns = d.columns;
    let ticket = d.ticket;
    Piece {
        state: Dispatcher {
            ticket,
            times,
            release,
            waits,
            sets,
            columns,
            codes,
            priority,
            blocked,
        },
        read,
        size,
        left,
        ended,
    }
}

// Whoever is handed the pieces of a run, one after the other, and may stop it.
pub trait Takes {
    type Error;

    // what a call does: who takes the piece, the piece, the answer, and who has taken it
    ghost taken: { Self → List ℕ → Result ⊤ Self.Error → Self → Type 0 };

    fn take(&mut self, piece: &[u8]) -> Result<(), Self::Error>
        ensures { taken self.old piece.now result self.new };
}

// By way of a slice that has room for an instant.
fn hand_on<T: Takes>(
    rest: &[u8],
    d: Dispatcher,
    budget: usize,
    out: &mut [u8],
    by: &mut T,
) -> Result<(), T::Error>
    requires { instant_most ≤ length out.old }
    ensures handed { IfOk result (λ _. HandsOver T.taken (state_of d) (releases_at rest.now 0) budget by.old out.old by.new out.new) }
    ensures stopped { IfErr result (λ e. StopsAt T.taken (state_of d) (releases_at rest.now 0) budget by.old out.old e by.new out.new) }
{
    let mut state = d;
    let mut at = 0;
    let mut left = budget;
    // each piece says how much it read and how many instants are left
    while left != 0 {
        let x = next_piece(&rest[at..], state, left, out);
        by.take(&out[..x.size])?;
        at += x.read;
        left = x.left;
        state = x.state;
    }
    Ok(())
}

// The run from the dispatcher `d` on, with the releases in `rest` and at most `budget` instants: its bytes are handed to `by`, piece by
// piece, until that stops it. They are made in `out`, or, where that may have no room for an instant, beside it, and `out` stays as it was.
pub fn hand_over<T: Takes>(
    rest: &[u8],
    d: Dispatcher,
    budget: usize,
    out: &mut [u8],
    by: &mut T,
) -> Result<(), T::Error>
    ensures handed { IfOk result (λ _. HandsOver T.taken (state_of d) (releases_at rest.now 0) budget by.old out.old by.new out.new) }
    ensures stopped { IfErr result (λ e. StopsAt T.taken (state_of d) (releases_at rest.now 0) budget by.old out.old e by.new out.new) }
{
    if out.len() < INSTANT_MOST {
        let mut room = [0u8; INSTANT_MOST];
        return hand_on(rest, d, budget, &mut room, by);
    }
    hand_on(rest, d, budget, out, by)
}

// The run from the dispatcher `d` on, with the releases in `rest` and at most `budget` instants: its bytes are handed to `take`, piece by
// piece, by way of `out`, until it fails. No instant is made where there may be no room for one. That a closure under a bound may be
// called is said by a function's clause alone, so that no `Takes` can be made of one: hence the `requires`, and the loop once more.
pub fn each_piece<E, F: FnMut(&[u8]) -> Result<(), E>>(
    rest: &[u8],
    d: Dispatcher,
    budget: usize,
    out: &mut [u8],
    mut take: F,
) -> Result<(), E>
    requires { F.IsAlwaysCallable take }
    ensures handed { instant_most ≤ length out.old → IfOk result (λ _. HandsOn (λ f piece g. CalledAt F.FnMut f piece (Ok tt) g)
        (state_of d) (releases_at rest.now 0) budget take) }
    ensures failed { IfErr result (λ e. (f : F) × (piece : List ℕ) × (g : F) × CalledAt F.FnMut f piece (Err e) g) }
    ensures handed_over { instant_most ≤ length out.old → IfOk result (λ _. (g : F) × HandsOver (CalledAt F.FnMut)
        (state_of d) (releases_at rest.now 0) budget take out.old g out.new) }
    ensures stopped { IfErr result (λ e. (g : F) × StopsAt (CalledAt F.FnMut)
        (state_of d) (releases_at rest.now 0) budget take out.old e g out.new) }
    ensures no_room { length out.old < instant_most → IsOk result × (out.new ≡ out.old) }
{
    if out.len() < INSTANT_MOST {
        return Ok(());
    }
    let mut state = d;
    let mut at = 0;
    let mut left = budget;
    // each piece says how much it read and how many instants are left
    while left != 0 {
        let made = next_piece(&rest[at..], state, left, out);
        take(&out[..made.size])?;
        at += made.read;
        left = made.left;
        state = made.state;
    }
    Ok(())
}
