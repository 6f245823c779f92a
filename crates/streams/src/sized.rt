// Bytes behind their length, which is told in 4 bytes, lowest first.
ghost use Rattle.std.specs.Prelude.{◌≡◌, ◌≤◌, ◌<◌, length, IfOk, IfSome, IfErr};

use crate::{Failed, ReadFailed, fill};

// Reads up to `count` bytes to the front of `to`, fewer only where the input ends or a read fails.
fn read(rt: HostRuntime, to: &mut [u8], count: usize) -> Result<usize, ReadFailed>
    requires { count ≤ length to.old }
    ensures within { IfOk result (λ n. n ≤ count) }
    ensures failed_not_all { IfErr result (λ e. e.count < count) }
{
    fill(rt, &mut to[..count], 0)
}

// Reads `count` bytes and drops them, and answers whether they were there.
fn skip(rt: HostRuntime, space: &mut [u8], count: usize) -> Result<bool, Failed> {
    let mut left = count;
    // by what is left, since each read says how many bytes it took
    while left > 0 {
        let most = left.min(space.len());
        let got = read(rt, space, most)?;
        if got == 0 {
            return Ok(false);
        }
        left -= got;
    }
    Ok(true)
}

// Reads a length and as many bytes, and answers how many of them were kept, or none where the input is cut short. Those for which there is
// room are kept at the front of `to`; the rest only has to be there, and is dropped by way of `space`.
pub fn read_sized(rt: HostRuntime, to: &mut [u8], space: &mut [u8]) -> Result<Option<usize>, Failed>
    ensures { IfOk result (λ whole. IfSome whole (λ kept. kept ≤ length to.old)) }
{
    let mut first = [0u8; 4];
    if fill(rt, &mut first, 0)? < 4 {
        return Ok(None);
    }
    let size = words::get_u32(&first, 0) as usize;
    let kept = size.min(to.len());
    if read(rt, to, kept)? < kept {
        return Ok(None);
    }
    Ok(skip(rt, space, size - kept)?.then_some(kept))
}
