// Lines printed on standard output, one by one or gathered in a lent slice that is printed where it is full.
#![tactic(auto)]

ghost use Rattle.std.specs.Prelude.{◌≡◌, ◌≤◌, ◌-◌, length, IfOk, IfErr, IsOk};
ghost use Rattle.lines.specs.Text.{shown};
ghost use Rattle.printing.specs.Gathering.{Gathers, gathered};

use lines::Text;
use streams::Failed;
use table::Refusal;

// A print that failed, and how many bytes are kept to be printed all the same.
#[derive(Clone, Copy, Debug)]
pub struct Unprinted {
    pub kept: usize,
    pub failed: Failed,
}

impl From<Unprinted> for Failed {
    ghost from_gives = { λ e failed. failed ≡ e.failed };

    fn from(e: Unprinted) -> Failed {
        e.failed
    }
}

// The bytes of a text.
pub fn shown(text: &Text) -> &[u8]
    ensures { result.now ≡ shown text.now }
{
    &text.bytes[..text.len.min(text.bytes.len())]
}

// Prints a text.
pub fn print_text(rt: HostRuntime, text: Text) -> Result<(), Failed>
    ensures { length (shown text) ≡ 0 → IsOk result }
{
    streams::write(rt, shown(&text))
}

// Says on standard error why an input is refused, behind who says it.
pub fn tell_refusal(rt: HostRuntime, who: &[u8], refusal: Refusal) {
    streams::tell(rt, who, shown(&lines::refused_input_line(Some(refusal))));
}

// Puts a text behind the first `len` bytes of `out`, or, where there may be no room behind them, prints those and puts it at the front, and
// answers how many bytes are kept to be printed then. The text is put in its place, and counted, also where the others cannot be printed.
pub fn gather(rt: HostRuntime, out: &mut [u8], len: usize, text: Text) -> Result<usize, Unprinted>
    ensures kept { IfOk result (λ kept. Gathers out.old len text kept) }
    ensures kept_unprinted { IfErr result (λ e. Gathers out.old len text e.kept) }
    ensures holds { out.new ≡ gathered out.old len text }
    ensures nothing_printed { 224 ≤ length out.old - len → IsOk result }
{
    if out.len().saturating_sub(len) < 224 {
        let printed = streams::write_front(rt, out, len);
        let kept = lines::put(text, out);
        return match printed {
            Ok(()) => Ok(kept),
            Err(failed) => Err(Unprinted { kept, failed }),
        };
    }
    let put = lines::put(text, &mut out[len..]);
    Ok(len + put)
}
