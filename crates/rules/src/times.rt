// Times.
ghost use Rattle.std.specs.Prelude.{◌≡◌};
ghost use Rattle.rules.specs.With as state;

// `t` and `n` ticks later, held at the last tick.
pub fn later(t: u64, n: u32) -> u64
    ensures { result ≡ state.later t n }
{
    t.saturating_add(u64::from(n))
}
