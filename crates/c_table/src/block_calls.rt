// Row blocks.
ghost use Rattle.common.specs.Outcome.{CountCall};
ghost use Rattle.row_spec.specs.Block.{row_count, block_field};
ghost use Rattle.c_table.specs.Outputs.{FieldCall};

use crate::counts::set_count;
use crate::fields::set_field;

// The number of rows.
pub fn block_check(schema: &[u8], block: &[u8], rows: &mut u32) -> u32
    ensures { CountCall (row_count schema.now block.now) result rows.old rows.new }
{
    set_count(rows::check(schema, block), rows)
}

// One field, as its kind and plain numbers.
pub fn block_field(
    schema: &[u8],
    block: &[u8],
    row: u32,
    column: u32,
    kind: &mut u8,
    whole: &mut i64,
    bits: &mut u64,
    nanos: &mut u32,
    start: &mut usize,
    length: &mut usize,
) -> u32
    ensures { FieldCall (block_field schema.now block.now row column) result
        (record { kind = kind.entry.now; whole = whole.old; bits = bits.old; nanos = nanos.old; start = start.old; length = length.old })
        (record { kind = kind.exit.now; whole = whole.new; bits = bits.new; nanos = nanos.new; start = start.new; length = length.new }) }
{
    let answer = rows::field(schema, block, row, column);
    set_field(answer, kind, whole, bits, nanos, start, length)
}
