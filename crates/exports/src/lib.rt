// The record function for programs in C and Rust: slices and numbers, and no type of this repository.
#![tactic(auto)]

ghost use Rattle.std.specs.Prelude.{◌≡◌};
ghost use Rattle.record.specs.Writing.{file, outcome_number, outcome_value};
ghost use Rattle.record.specs.FileClaim.{AcceptedWithClaim};

// The record of `input` in the front of `out`. The answer is the number of the refusal, 0 where there is none; what `value` holds then is
// the record's length, the length needed with 13, or the place of the entry that is refused. Nothing is asked of the bytes. Of the run of
// an input that is accepted demand 3 holds. That the three are live and apart from each other, which a reference is by itself, a caller in
// C sees to (link/gateway.h).
#[unsafe(no_mangle)]
pub extern "C" fn gateway_record(input: &[u8], out: &mut [u8], value: &mut usize) -> u8
    ensures value { result ≡ outcome_number (file input.now out.old).outcome }
    ensures value_after { value.new ≡ outcome_value (file input.now out.old).outcome }
    ensures out_after { out.new ≡ (file input.now out.old).memory }
    ensures accepted_with_claim { AcceptedWithClaim input.now }
{
    let outcome = record::write(input, out);
    *value = record::value_of(outcome);
    record::number_of(outcome)
}
