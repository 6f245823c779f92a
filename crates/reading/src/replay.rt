// A run made again, instant by instant, and held against a record piece by piece, so that no more of it is kept than a piece.
ghost use Rattle.std.specs.Prelude.{◌≡◌, false, ◌&&◌, ◌≤◌, eqb, length, take, drop};
ghost use Rattle.record.specs.Cursor.{Room, start, run_bytes};
ghost use Rattle.reading.specs.Parts.{Tells, ReadHead};
ghost use Rattle.reading.specs.Reading.{same_bytes, yields};

use entries::{RELEASE_SIZE, limits};
use table::Head;

// How many bytes of a run are made before they are held against the record: long pieces are compared faster than what one instant leaves.
const PIECE: usize = 4096;

// A branch that stores no more than this is one that a compiler makes of many bytes at once.
fn alike_with(alike: bool, x: u8, y: u8) -> bool
    ensures { result ≡ (alike && eqb x y) }
{
    if x != y {
        return false;
    }
    alike
}

// Whether two slices hold the same bytes.
pub fn same(a: &[u8], b: &[u8]) -> bool
    ensures { Tells result a.now b.now }
{
    if a.len() != b.len() {
        return false;
    }
    let mut alike = true;
    for (i, x) in a.iter().enumerate() {
        alike = alike_with(alike, *x, b[i]);
    }
    alike
}

// Whether the bytes of `stored` from `at` on begin with the first `n` of `made`.
fn goes_on_with(stored: &[u8], at: usize, made: &[u8], n: usize) -> bool
    requires at_in_bounds { at ≤ length stored.now }
    requires n_in_bounds { n ≤ length made.now }
    ensures { Tells result (take n (drop at stored.now)) (take n made.now) }
{
    if stored.len() - at < n {
        return false;
    }
    let end = at + n;
    same(&stored[at..end], &made[..n])
}

// Whether the record of a run, of at most `budget` instants, is `stored`.
fn replays(s: &[u8], head: Head, budget: usize, stored: &[u8]) -> bool
    requires { Room s.now (start head) budget stored.now false }
    ensures { result ≡ same_bytes (run_bytes s.now (start head) budget) stored.now }
{
    let mut made = [0u8; PIECE];
    let table = head.table;
    let mut d = dispatcher::opened(table, head.marked);
    let mut at = head.end;
    let mut size: usize = 0;
    let mut left = budget;
    // each piece says how much it read, and is held against the place behind those before it, which `hand_over` does not hand on
    while left != 0 {
        let x = pieces::next_piece(&s[at..], d, left, &mut made);
        if !goes_on_with(stored, size, &made, x.size) {
            return false;
        }
        size += x.size;
        at += x.read;
        left = x.left;
        d = x.state;
    }
    size == stored.len()
}

// Whether an input, of which the head is read already, is accepted and its run's record is `stored`.
pub fn yields(s: &[u8], head: Head, stored: &[u8]) -> bool
    requires { ReadHead s.now head }
    ensures { result ≡ yields s.now stored.now }
{
    let Ok(checked) = run::check_behind(s, head) else {
        return false;
    };
    let n = (s.len() - checked.end) / RELEASE_SIZE;
    let budget = limits::INSTANTS_EACH * n + limits::INSTANTS_EACH;
    replays(s, checked, budget, stored)
}
