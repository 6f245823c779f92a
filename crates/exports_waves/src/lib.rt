// The waveform of an input for programs in C and Rust: slices and numbers, and no type of this repository. It is a library of its own for
// the reason that exports_reading is one.
#![tactic(auto)]

ghost use Rattle.std.specs.Prelude.{◌≡◌};
ghost use Rattle.record.specs.Writing.{outcome_number, outcome_value};
ghost use Rattle.waves.specs.Writing.{dumped};
ghost use Rattle.waves.specs.Viewed.{AcceptedViews};

// The value change dump of `input` in the front of `out`. The answer is the number of the refusal, 0 where there is none; what `value`
// holds then is the dump's length, the length needed with 13, or the place of the entry that is refused. Nothing is asked of the bytes. Of
// an input that is accepted a viewer shows what its run has at every tick.
#[unsafe(no_mangle)]
pub extern "C" fn gateway_waveform(input: &[u8], out: &mut [u8], value: &mut usize) -> u8
    ensures value { result ≡ outcome_number (dumped input.now out.old).outcome }
    ensures value_after { value.new ≡ outcome_value (dumped input.now out.old).outcome }
    ensures out_after { out.new ≡ (dumped input.now out.old).memory }
    ensures accepted_views { AcceptedViews input.now }
{
    let outcome = waves::write(input, out);
    *value = record::value_of(outcome);
    record::number_of(outcome)
}
