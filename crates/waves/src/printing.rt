// The bytes of a sample, put into a slice one behind the other. Each function is handed the place behind what is put before, and answers
// the place behind its own. It asks for room for its own bytes and no more, so that a dump can end where its slice does. Beside it stands
// how many they are, for a run of which only the length counts.
ghost use Rattle.std.specs.Prelude.{◌≡◌, cond, [], ◌∷◌, ◌++◌, ◌+◌, ◌≤◌, ◌<◌, eqb, length};
ghost use Rattle.lines.specs.Lines.{decimal};
ghost use Rattle.waves.specs.Dump as dump;
ghost use Rattle.waves.specs.Printing.{Room, Lays};

use crate::Shown;

// The lengths of the lines: of a value of eight wires and of one, and of all four under the mark of time 0; of a mark without its digits.
const WIRES: usize = 12;

const WIRE: usize = 3;

pub const START: usize = 42;

const MARK: usize = 2;

fn digit(n: u8) -> u8
    ensures { result ≡ dump.digit n }
{
    48 + n % 2
}

fn put_byte(out: &mut [u8], at: usize, b: u8) -> usize
    requires { at < length out.old }
    ensures { Lays at (b ∷ []) out.old result out.new }
{
    out[at] = b;
    at + 1
}

fn number_size(n: u64) -> usize
    ensures { result ≡ length (decimal n) }
{
    let mut left = n;
    let mut size: usize = 1;
    // digit by digit
    while 10 <= left {
        left /= 10;
        size += 1;
    }
    size
}

// The last digit first.
fn put_number(out: &mut [u8], at: usize, n: u64) -> usize
    requires { Room at (decimal n) out.old }
    ensures { Lays at (decimal n) out.old result out.new }
{
    let size = number_size(n);
    let mut i = at + size - 1;
    let mut left = n;
    // digit by digit, the last first
    while 10 <= left {
        out[i] = 48 + (left % 10) as u8;
        left /= 10;
        i -= 1;
    }
    out[i] = 48 + left as u8;
    at + size
}

fn put_mark(out: &mut [u8], at: usize, t: u64) -> usize
    requires { Room at (dump.mark t) out.old }
    ensures { Lays at (dump.mark t) out.old result out.new }
{
    let number = put_byte(out, at, b'#');
    let end = put_number(out, number, t);
    put_byte(out, end, b'\n')
}

fn wires(code: u8, n: u8) -> [u8; 12]
    ensures { result ≡ dump.wires code n }
{
    [
        b'b',
        digit(n / 128),
        digit(n / 64),
        digit(n / 32),
        digit(n / 16),
        digit(n / 8),
        digit(n / 4),
        digit(n / 2),
        digit(n),
        b' ',
        code,
        b'\n',
    ]
}

fn put_wires(out: &mut [u8], at: usize, code: u8, n: u8) -> usize
    requires { at + 12 ≤ length out.old }
    ensures { Lays at (dump.wires code n) out.old result out.new }
{
    let line = wires(code, n);
    words::copy(&line, &mut out[at..]);
    at + WIRES
}

fn put_wire(out: &mut [u8], at: usize, n: u8) -> usize
    requires n_bound { n ≤ 1 }
    requires at_in_bounds { at + 3 ≤ length out.old }
    ensures { Lays at (dump.wire 100 n) out.old result out.new }
{
    let code = put_byte(out, at, 48 + n);
    let end = put_byte(out, code, b'd');
    put_byte(out, end, b'\n')
}

// All four under the mark of time 0.
pub fn put_start(out: &mut [u8], at: usize, w: Shown) -> usize
    requires half_bound { w.half ≤ 1 }
    requires room { Room at (dump.mark 0 ++ dump.all w) out.old }
    ensures { Lays at (dump.mark 0 ++ dump.all w) out.old result out.new }
{
    let a = put_mark(out, at, 0);
    let b = put_wires(out, a, b'a', w.processor);
    let c = put_wires(out, b, b'b', w.copyin);
    let d = put_wires(out, c, b'c', w.copyout);
    put_wire(out, d, w.half)
}

// A value where it changes.
fn put_new(out: &mut [u8], at: usize, code: u8, old: u8, new: u8) -> usize
    requires { Room at (dump.if_new old new (dump.wires code new)) out.old }
    ensures { Lays at (dump.if_new old new (dump.wires code new)) out.old result out.new }
{
    if old == new {
        return at;
    }
    put_wires(out, at, code, new)
}

fn put_new_half(out: &mut [u8], at: usize, old: u8, new: u8) -> usize
    requires bound { new ≤ 1 }
    requires room { Room at (dump.if_new old new (dump.wire 100 new)) out.old }
    ensures { Lays at (dump.if_new old new (dump.wire 100 new)) out.old result out.new }
{
    if old == new {
        return at;
    }
    put_wire(out, at, new)
}

// The values that change at a time, under its mark.
pub fn put_change(out: &mut [u8], at: usize, t: u64, v: Shown, w: Shown) -> usize
    requires half_bound { w.half ≤ 1 }
    requires room { Room at (dump.change v (record { time = t; shown = w })) out.old }
    ensures { Lays at (dump.change v (record { time = t; shown = w })) out.old result out.new }
{
    if v == w { // no mark without a value
        return at;
    }
    let a = put_mark(out, at, t);
    let b = put_new(out, a, b'a', v.processor, w.processor);
    let c = put_new(out, b, b'b', v.copyin, w.copyin);
    let d = put_new(out, c, b'c', v.copyout, w.copyout);
    put_new_half(out, d, v.half, w.half)
}

fn new_size(old: u8, new: u8, size: usize) -> usize
    ensures { (result ≡ cond (eqb old new) 0 size) × (result ≤ size) }
{
    if old == new {
        return 0;
    }
    size
}

pub fn change_size(t: u64, v: Shown, w: Shown) -> usize
    ensures { result ≡ length (dump.change v (record { time = t; shown = w })) }
{
    if v == w { // nothing at all
        return 0;
    }
    let a = new_size(v.processor, w.processor, WIRES);
    let b = new_size(v.copyin, w.copyin, WIRES);
    let c = new_size(v.copyout, w.copyout, WIRES);
    let d = new_size(v.half, w.half, WIRE);
    MARK + number_size(t) + a + b + c + d
}
