// A file's record, written into a lent slice.
ghost use Rattle.std.specs.Prelude.{◌≡◌};
ghost use Rattle.record.specs.Writing.{Wrote, written, file};
ghost use Rattle.record.specs.FileClaim.{WroteWithClaim};
ghost use Rattle.record.specs.Cursor.{Ran, Room, Runs, RoomAt, KeptAt, RestRoom, RestRan, start, run_bytes, budget_at};

use crate::Unwritten;
use entries::{RELEASE_SIZE, limits};
use pieces::Piece;
use table::Head;

// How many bytes of a run are made at a time where they are not made in their place.
const SCRATCH: usize = 1024;

// One like it stands in waves: a function that both could call would be public, with this `requires`.
// Where the record is kept, the bytes of a piece are copied to their place.
fn keep_piece(piece: &[u8], out: &mut [u8], place: usize, keep: bool)
    requires { RoomAt piece.now out.old place keep }
    ensures { KeptAt piece.now out.old place keep out.new }
{
    if keep {
        words::copy(piece, &mut out[place..]);
    }
}

// The rest of a run, behind the piece `from` that was made of it: the length of the whole record. With `keep` the bytes of the rest are put
// behind those before; without, nothing is put, and only the length counts. They are made in a scratch: where a slice has room for the
// record and no more, its last instants are not made in it.
fn go_on(s: &[u8], from: Piece, out: &mut [u8], keep: bool) -> usize
    requires { RestRoom s.now from out.old keep }
    ensures { RestRan s.now from out.old keep result out.new }
{
    let mut scratch = [0u8; SCRATCH];
    let mut d = from.state;
    let mut at = from.read;
    let mut size = from.size;
    let mut left = from.left;
    // each piece says how much it read, and is kept behind those before it: `hand_over` hands on no place
    while left != 0 {
        let x = pieces::next_piece(&s[at..], d, left, &mut scratch);
        let n = x.size;
        keep_piece(&scratch[..n], out, size, keep);
        size += n;
        at += x.read;
        left = x.left;
        d = x.state;
    }
    size
}

// The instants of a run, at most `budget` of them: with `keep` in the slice itself, as far as there is room for whole instants.
fn run_over(s: &[u8], head: Head, budget: usize, out: &mut [u8], keep: bool) -> usize
    requires { Room s.now (start head) budget out.old keep }
    ensures { Ran s.now (start head) budget out.old keep result out.new }
{
    let table = head.table;
    let read = head.end;
    let state = dispatcher::opened(table, head.marked);
    if keep {
        let x = pieces::next_piece(&s[read..], state, budget, out);
        return go_on(
            s,
            Piece {
                read: read + x.read,
                ..x
            },
            out,
            keep,
        );
    }
    let from = Piece {
        state,
        read,
        size: 0,
        left: budget,
        ended: false,
    };
    go_on(s, from, out, keep)
}

// The record of a run, in a slice that is long enough, or the length needed. Where there is room for the longest record of
// so many releases, the run is made once.
fn write_run(s: &[u8], head: Head, out: &mut [u8]) -> Result<usize, Unwritten>
    requires { Runs s.now (start head) }
    ensures { Wrote (written (run_bytes s.now (start head) (budget_at s.now (start head))) out.old)
        result out.new }
{
    let n = (s.len() - head.end) / RELEASE_SIZE;
    let budget = limits::INSTANTS_EACH * n + limits::INSTANTS_EACH;
    if limits::RECORD_EACH * n <= out.len() {
        let size = run_over(s, head, budget, out, true);
        return Ok(size);
    }
    let needed = run_over(s, head, budget, out, false);
    if needed <= out.len() {
        let size = run_over(s, head, budget, out, true);
        return Ok(size);
    }
    Err(Unwritten::TooShort(needed))
}

fn write_file(s: &[u8], out: &mut [u8]) -> Result<usize, Unwritten>
    ensures { Wrote (file s.now out.old) result out.new }
{
    let head = run::check_file(s)?;
    write_run(s, head, out)
}

// The record of an input in the front of `out`, and its length; a refusal of the input; or 13 with the length needed. Nothing
// behind the record changes, and on a refusal nothing at all. Of the run of every input that is accepted demand 3 holds.
pub fn write(s: &[u8], out: &mut [u8]) -> Result<usize, Unwritten>
    ensures { WroteWithClaim s.now out.old result out.new }
{
    write_file(s, out)
}
