// The reading of a stored record for programs in C and Rust. It is a library of its own, and not one with the record function, since what
// two functions of one library call is compiled once for both, and then the steps of an instant are calls.
#![tactic(auto)]

ghost use Rattle.std.specs.Prelude.{◌≡◌};
ghost use Rattle.record.specs.Writing.{outcome_number, outcome_value};
ghost use Rattle.reading.specs.Reading.{reading};
ghost use Rattle.reading.specs.Acceptance.{Accepts};

// The release entries that made `stored`, a record, in the front of `out`. The answer is the number of the refusal, 0 where there is none;
// what `value` holds then is the length of the entries, the length needed with 13, or the place of the entry that is refused.
#[unsafe(no_mangle)]
pub extern "C" fn gateway_read(tasks: &[u8], stored: &[u8], out: &mut [u8], value: &mut usize) -> u8
    ensures value { result ≡ outcome_number (reading tasks.now stored.now out.old).outcome }
    ensures value_after { value.new ≡ outcome_value (reading tasks.now stored.now out.old).outcome }
    ensures out_after { out.new ≡ (reading tasks.now stored.now out.old).memory }
    ensures accepts { Accepts tasks.now stored.now out.old
        (reading tasks.now stored.now out.old).outcome out.new }
{
    let outcome = reading::read(tasks, stored, out);
    *value = record::value_of(outcome);
    record::number_of(outcome)
}
