// The input that releases make: the task entries, and a release entry for each.
ghost use Rattle.std.specs.Prelude.{◌≡◌, ◌+◌, ◌*◌, ◌≤◌, length};
ghost use Rattle.entries.specs.Entries.{size, laid, Put};
ghost use Rattle.reading.specs.Parts.{releases_in};
ghost use Rattle.reading.specs.Reading.{list_bytes, input_of};

use entries::Release;

// A release entry for each number, in the front of `out`.
fn lay(keys: &[u64], out: &mut [u8])
    requires { size 2 * length keys.now ≤ length out.old }
    ensures { out.new ≡ laid 0 (list_bytes (releases_in keys.now)) out.old }
{
    let mut at: usize = 0;
    for k in keys {
        let r = Release {
            task: (*k % 256) as u8,
            time: *k / 256,
        };
        at += entries::put_release(&mut out[at..], r);
    }
}

// The input in the front of `out`, and its length.
pub fn lay_input(tasks: &[u8], keys: &[u64], out: &mut [u8]) -> usize
    requires { length tasks.now + size 2 * length keys.now ≤ length out.old }
    ensures { Put (input_of tasks.now (releases_in keys.now)) out.old result out.new }
{
    let from = words::copy(tasks, out);
    lay(keys, &mut out[from..]);
    from + entries::RELEASE_SIZE * keys.len()
}

// The same where there is room for it; where not, `out` stays and the answer is 0. Reading has made room, and asking for it again there
// takes one hundredth of its time.
pub fn rebuild(tasks: &[u8], keys: &[u64], out: &mut [u8]) -> usize
    ensures { Put (input_of tasks.now (releases_in keys.now)) out.old result out.new }
{
    if out.len() < tasks.len() {
        return 0;
    }
    if (out.len() - tasks.len()) / entries::RELEASE_SIZE < keys.len() {
        return 0;
    }
    lay_input(tasks, keys, out)
}
