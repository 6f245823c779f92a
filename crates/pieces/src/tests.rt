// The loop that calls a closure, on a run that is known from outside: task 1, whose phases take 2, 3 and 1 ticks, is released at 0.
use super::*;

const HEAD: [u8; 16] = [1, 1, 1, 1, 2, 0, 0, 0, 3, 0, 0, 0, 1, 0, 0, 0];

const RELEASES: [u8; 10] = [2, 1, 0, 0, 0, 0, 0, 0, 0, 0];

// what it leaves, as the rules say: three intervals, and the job done behind the second
const RECORD: [u8; 99] = [
    17, 0, 0, 0, 0, 0, 0, 0, 0, 2, 0, 0, 0, 0, 0, 0, 0, 0, 255, 0, 255, 1, 1, 255, //
    17, 2, 0, 0, 0, 0, 0, 0, 0, 5, 0, 0, 0, 0, 0, 0, 0, 1, 1, 1, 255, 255, 0, 255, //
    16, 1, 0, 0, 0, 0, 0, 0, 0, 0, 2, 0, 0, 0, 0, 0, 0, 0, 6, 0, 0, 0, 0, 0, 0, 0, 0, //
    17, 5, 0, 0, 0, 0, 0, 0, 0, 6, 0, 0, 0, 0, 0, 0, 0, 0, 255, 0, 1, 255, 0, 255,
];

// The run handed to a closure that takes the next bytes of `record` alone: how many of them are left, and whether it stopped the run.
fn left_of(record: &[u8], d: Dispatcher, budget: usize, out: &mut [u8]) -> (usize, bool) {
    let mut rest = record;
    let handed = each_piece(&RELEASES, d, budget, out, |piece| {
        match rest.strip_prefix(piece) {
            Some(behind) => {
                rest = behind;
                Ok(())
            }
            None => Err(()),
        }
    });
    (rest.len(), handed.is_err())
}

#[test]
fn calls_a_closure_on_the_record(rt: HostRuntime) {
    let Ok(d) = dispatcher::open(&HEAD) else {
        assert!(rt; false, "the head is refused");
        return;
    };
    let mut room = [0u8; 2 * INSTANT_MOST];
    let mut least = [0u8; INSTANT_MOST];
    let mut short = [0u8; INSTANT_MOST - 1];
    assert_eq!(rt; left_of(&RECORD, d, 32, &mut room), (0, false));
    assert_eq!(rt; left_of(&RECORD, d, 32, &mut least), (0, false));
    // of two instants the second ends the first interval
    assert_eq!(rt; left_of(&RECORD, d, 2, &mut room), (75, false));
    assert_eq!(rt; left_of(&RECORD, d, 0, &mut room), (99, false));
    assert_eq!(rt; left_of(&RECORD, d, 32, &mut short), (99, false));
    // a record that breaks off: the closure stops the run at the first piece that holds more
    assert_eq!(rt; left_of(&RECORD[..30], d, 32, &mut least), (6, true));
}
