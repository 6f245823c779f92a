// A file's run as a dump in a lent slice. Nothing as long as a dump is kept: its bytes are made instant by instant.
ghost use Rattle.std.specs.Prelude.{◌≡◌, ◌+◌, ◌≤◌, length};
ghost use Rattle.dispatcher.specs.Dispatcher.{state_of};
ghost use Rattle.record.specs.Cursor.{RoomAt, KeptAt, Runs};
ghost use Rattle.record.specs.Writing.{Wrote, written};
ghost use Rattle.record.specs.Cursor.{start as run_start};
ghost use Rattle.waves.specs.Dump as dump;
ghost use Rattle.waves.specs.Printing.{Room, Lays};
ghost use Rattle.waves.specs.Writing.{dumped};
ghost use Rattle.waves.specs.Viewed.{WroteWithViews};
ghost use Rattle.waves.specs.Drawing.{SeenIn, shown_by, turn, PutsInstant, run_dump, whole_dump, Space, SpaceFrom, DrewFrom, Draws};

use crate::Shown;
use crate::printing::{START, change_size, put_change, put_start};
use dispatcher::Dispatcher;
use entries::{NO_TASK, RELEASE_SIZE, limits};
use record::Unwritten;
use rules::{View, at};
use table::Head;

// More than one instant's lines take.
pub const ROOM: usize = 256;

// The length of the header.
pub const HEADER: usize = 191;

// How many bytes of a dump there are, and whether an instant was among them.
#[derive(Clone, Copy)]
struct Drawn {
    size: usize,
    begun: bool,
}

// The header, the same for every run.
pub fn header() -> [u8; HEADER]
    ensures { result ≡ dump.header }
{
    *b"$timescale 1 us $end\n\
        $scope module gateway $end\n\
        $var wire 8 a processor $end\n\
        $var wire 8 b copy_in $end\n\
        $var wire 8 c copy_out $end\n\
        $var wire 1 d half $end\n\
        $upscope $end\n\
        $enddefinitions $end\n"
}

// One like it stands in record: a function that both could call would be public, with this `requires`.
// Where the dump is kept, bytes are copied to their place.
fn keep_piece(piece: &[u8], out: &mut [u8], place: usize, keep: bool)
    requires { RoomAt piece.now out.old place keep }
    ensures { KeptAt piece.now out.old place keep out.new }
{
    if keep {
        words::copy(piece, &mut out[place..]);
    }
}

fn shown<'a>(times: &'a at::Times, sets: &'a at::Sets, codes: &'a at::Codes) -> Shown
    ensures { SeenIn times.now sets.now codes.now result }
{
    let v = views::viewed(times, sets, codes);
    Shown {
        processor: v.processor,
        copyin: v.copyin,
        copyout: v.copyout,
        half: v.half,
    }
}

// What an instant adds, where `v` shows before it.
fn put_turn(out: &mut [u8], at: usize, begun: bool, t: u64, v: Shown, w: Shown) -> usize
    requires half_before { v.half ≤ 1 }
    requires half_after { w.half ≤ 1 }
    requires room { Room at (turn «begun» v (record { time = t; shown = w })) out.old }
    ensures { Lays at (turn «begun» v (record { time = t; shown = w })) out.old result out.new }
{
    if begun {
        return put_change(out, at, t, v, w);
    }
    if t == 0 {
        return put_start(out, at, w);
    }
    let next = put_start(out, at, v);
    put_change(out, next, t, v, w)
}

fn turn_size(begun: bool, t: u64, v: Shown, w: Shown) -> usize
    ensures { result ≡ length (turn «begun» v (record { time = t; shown = w })) }
{
    if begun {
        return change_size(t, v, w);
    }
    if t == 0 {
        return START;
    }
    START + change_size(t, v, w)
}

// With `keep` what an instant adds is put in its place. Without, its bytes are counted and not made: both runs of a dump would otherwise
// make every line.
fn add_turn(out: &mut [u8], at: usize, keep: bool, begun: bool, t: u64, v: Shown, w: Shown) -> usize
    requires half_before { v.half ≤ 1 }
    requires half_after { w.half ≤ 1 }
    requires at_bound { at ≤ 20000000 }
    requires room_at { RoomAt (turn «begun» v (record { time = t; shown = w })) out.old at keep }
    ensures value { result ≡ at + length (turn «begun» v (record { time = t; shown = w })) }
    ensures kept_at { KeptAt (turn «begun» v (record { time = t; shown = w })) out.old at keep out.new }
{
    if keep {
        return put_turn(out, at, begun, t, v, w);
    }
    at + turn_size(begun, t, v, w)
}

// What shows by a view.
fn shown_by(v: View) -> Shown
    ensures { (result ≡ shown_by v) × (result.half ≤ 1) }
{
    Shown {
        processor: v.processor,
        copyin: v.copyin,
        copyout: v.copyout,
        half: views::half_shown(v.half),
    }
}

// What an instant adds to a dump, by the views before and after it, for whoever makes one instant by instant: in the front of a slice
// that has room for any.
pub fn put_instant(out: &mut [u8], begun: bool, t: u64, before: View, after: View) -> usize
    ensures { PutsInstant «begun» t before after out.old result out.new }
{
    if out.len() < ROOM {
        return 0;
    }
    put_turn(out, 0, begun, t, shown_by(before), shown_by(after))
}

// The instants of a run, at most `budget` of them, from the place behind what is put before: with `keep` their bytes are put, without only
// their length counts. The entries that an instant leaves in a record are put nowhere.
fn draw_instants(
    s: &[u8],
    from: usize,
    d: Dispatcher,
    budget: usize,
    out: &mut [u8],
    place: usize,
    keep: bool,
) -> Drawn
    requires { SpaceFrom s.now from (state_of d) budget out.old place keep }
    ensures { DrewFrom s.now from (state_of d) budget out.old place keep result out.new }
{
    let mut times = d.times;
    let mut sets = d.sets;
    let mut codes = d.codes;
    let mut release = d.release;
    let mut blocked = d.blocked;
    let mut waits = d.waits;
    let mut at = from;
    let mut size = place;
    let mut left = budget;
    let mut begun = false;
    let mut v = shown(&times, &sets, &codes);
    // an instant may be the last, and each is drawn by what shows before and after it
    while left != 0 {
        let x = run::advance(
            &s[at..],
            &mut times,
            &mut sets,
            &mut codes,
            &d.priority,
            &d.columns,
            &mut release,
            &mut blocked,
            &mut waits,
            &mut [],
        );
        if x.time == u64::MAX {
            break;
        }
        let w = shown(&times, &sets, &codes);
        size = add_turn(out, size, keep, begun, x.time, v, w);
        at += x.read;
        begun = true;
        v = w;
        left -= 1;
    }
    Drawn { size, begun }
}

// A run's whole dump: its length, and with `keep` its bytes.
fn draw(s: &[u8], part: Head, budget: usize, out: &mut [u8], keep: bool) -> usize
    requires { Space s.now (run_start part) budget (run_dump s.now (run_start part) budget) out.old 0 keep }
    ensures { Draws (run_dump s.now (run_start part) budget) out.old keep result out.new }
{
    let table = part.table;
    let from = part.end;
    let d = dispatcher::opened(table, part.marked);
    let front = header();
    keep_piece(&front, out, 0, keep);
    let drawn = draw_instants(s, from, d, budget, out, HEADER, keep);
    let size = drawn.size;
    if drawn.begun {
        return size;
    }
    let mut scratch = [0u8; ROOM];
    let nobody = Shown {
        processor: NO_TASK,
        copyin: NO_TASK,
        copyout: NO_TASK,
        half: 0,
    };
    let n = put_start(&mut scratch, 0, nobody);
    keep_piece(&scratch[..n], out, size, keep);
    size + n
}

// The dump of a run, in a slice that is long enough, or the length needed.
fn write_run(s: &[u8], part: Head, out: &mut [u8]) -> Result<usize, Unwritten>
    requires { Runs s.now (run_start part) }
    ensures { Wrote (written (whole_dump s.now part) out.old) result out.new }
{
    let n = (s.len() - part.end) / RELEASE_SIZE;
    let budget = limits::INSTANTS_EACH * n + limits::INSTANTS_EACH;
    let needed = draw(s, part, budget, out, false);
    if out.len() < needed {
        return Err(Unwritten::TooShort(needed));
    }
    let size = draw(s, part, budget, out, true);
    Ok(size)
}

fn write_file(s: &[u8], out: &mut [u8]) -> Result<usize, Unwritten>
    ensures { Wrote (dumped s.now out.old) result out.new }
{
    let part = run::check_file(s)?;
    write_run(s, part, out)
}

// The dump of an input in the front of `out`, and its length; a refusal of the input; or 13 with the length needed. Nothing behind the dump
// changes, and on a refusal nothing at all.
pub fn write(s: &[u8], out: &mut [u8]) -> Result<usize, Unwritten>
    ensures { WroteWithViews s.now out.old result out.new }
{
    write_file(s, out)
}
