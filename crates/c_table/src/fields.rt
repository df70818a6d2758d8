// The answer of a field call.
ghost use Rattle.common.specs.Refusal.{outcome};
ghost use Rattle.c_table.specs.Outputs.{FieldCall};

use common::Refusal;
use row_spec::Field;

// The answer as a status; its kind and plain numbers are set where there is a field.
pub(crate) fn set_field(
    answer: Result<Field, Refusal>,
    kind: &mut u8,
    whole: &mut i64,
    bits: &mut u64,
    nanos: &mut u32,
    start: &mut usize,
    length: &mut usize,
) -> u32
    ensures { FieldCall (outcome answer) result
        (record { kind = kind.entry.now; whole = whole.old; bits = bits.old; nanos = nanos.old; start = start.old; length = length.old })
        (record { kind = kind.exit.now; whole = whole.new; bits = bits.new; nanos = nanos.new; start = start.new; length = length.new }) }
{
    match answer {
        Err(refusal) => refusal.into(),
        Ok(f) => {
            let v = values::show(f);
            let w = v.whole;
            *kind = v.kind;
            *whole = w;
            *bits = v.bits;
            *nanos = v.nanos;
            *start = v.start;
            *length = v.length;
            0
        }
    }
}
