// Numbers of 1, 4 and 8 bytes, lowest byte first: read at a place of a slice, and written into the front of a lent one.
#![tactic(auto)]

ghost use Rattle.std.specs.Prelude.{◌≡◌, ◌+◌, ◌≤◌, ◌<◌, ◌++◌, ℕ, cond, leb, length, get_or, drop};
ghost use Rattle.words.specs.Words.{number_at, room, written};

// The `N` bytes from `at` on; a byte past the end counts as 0. Where all of them stand there they are one load.
fn bytes_at<const N: usize>(s: &[u8], at: usize) -> [u8; N]
    ensures { (k : ℕ) → k < N → get_or result k 0 ≡ get_or s.now (at + k) 0 }
{
    let rest = s.get(at..).unwrap_or(&[]);
    match rest.first_chunk::<N>() {
        Some(bytes) => *bytes,
        None => {
            let mut bytes = [0; N];
            copy(rest, &mut bytes);
            bytes
        }
    }
}

// The byte at `at`; a byte past the end counts as 0, here and below.
#[tactic(auto, using(crate::proofs::Laws::one_byte))]
pub fn get_u8(s: &[u8], at: usize) -> u8
    ensures { result ≡ number_at 1 s.now at }
{
    s.get(at).copied().unwrap_or(0)
}

// The number of 4 bytes at `at`.
pub fn get_u32(s: &[u8], at: usize) -> u32
    ensures { result ≡ number_at 4 s.now at }
{
    u32::from_le_bytes(bytes_at(s, at))
}

// The number of 8 bytes at `at`.
pub fn get_u64(s: &[u8], at: usize) -> u64
    ensures { result ≡ number_at 8 s.now at }
{
    u64::from_le_bytes(bytes_at(s, at))
}

// `bytes` at the front of `out`, and how many were written: none if `out` is too short, here and below.
fn put(out: &mut [u8], bytes: &[u8]) -> usize
    ensures count { result ≡ cond (leb (length bytes.now) (length out.old)) (length bytes.now) 0 }
    ensures after { out.new ≡ cond (leb (length bytes.now) (length out.old)) (bytes.now ++ drop (length bytes.now) out.old) out.old }
{
    if out.len() < bytes.len() {
        return 0;
    }
    copy(bytes, out)
}

// `v` in the first byte of `out`.
#[tactic(auto, unfolding(crate::specs::Words::bytes_of, crate::specs::Words::room, crate::specs::Words::written))]
pub fn put_u8(out: &mut [u8], v: u8) -> usize
    ensures { (result ≡ room 1 out.old) × (out.new ≡ written 1 v out.old) }
{
    put(out, &[v])
}

// `v` in the first 4 bytes of `out`.
pub fn put_u32(out: &mut [u8], v: u32) -> usize
    ensures { (result ≡ room 4 out.old) × (out.new ≡ written 4 v out.old) }
{
    put(out, &u32::to_le_bytes(v))
}

// `v` in the first 8 bytes of `out`.
pub fn put_u64(out: &mut [u8], v: u64) -> usize
    ensures { (result ≡ room 8 out.old) × (out.new ≡ written 8 v out.old) }
{
    put(out, &u64::to_le_bytes(v))
}

// Puts `from` at the front of `to`, and answers how many bytes that are. What stands behind them stays.
pub fn copy(from: &[u8], to: &mut [u8]) -> usize
    requires { length from.now ≤ length to.old }
    ensures count { result ≡ length from.now }
    ensures after { to.new ≡ from.now ++ drop (length from.now) to.old }
{
    let n = from.len();
    to[..n].copy_from_slice(from);
    n
}
