// Schemas and row blocks.
ghost use Rattle.common.specs.Outcome.{CountCall};
ghost use Rattle.row_spec.specs.Schema.{column_count, column_of};
ghost use Rattle.row_spec.specs.Block.{row_count, block_field};
ghost use Rattle.std.specs.Prelude.{length};
ghost use Rattle.row_spec.specs.Page.{block_page};
ghost use Rattle.c_list.specs.Outputs.{PageCall};
ghost use Rattle.c_table.specs.Outputs.{ColumnCall, FieldCall};

// The number of columns.
#[unsafe(no_mangle)]
pub extern "C" fn bv_schema_check(schema: &[u8], columns: &mut u32) -> u32
    ensures { CountCall (column_count schema.now) result columns.old columns.new }
{
    c_table::schema_check(schema, columns)
}

// One column: its type's id, whether it may be null, its length or precision, its scale.
#[unsafe(no_mangle)]
pub extern "C" fn bv_schema_column(
    schema: &[u8],
    column: u32,
    id: &mut u8,
    nullable: &mut u8,
    size: &mut u32,
    scale: &mut u32,
) -> u32
    ensures { ColumnCall (column_of schema.now column) result
        (record { id = id.entry.now; nullable = nullable.old; size = size.old; scale = scale.old })
        (record { id = id.exit.now; nullable = nullable.new; size = size.new; scale = scale.new }) }
{
    c_table::schema_column(schema, column, id, nullable, size, scale)
}

// The number of rows.
#[unsafe(no_mangle)]
pub extern "C" fn bv_block_check(schema: &[u8], block: &[u8], rows: &mut u32) -> u32
    ensures { CountCall (row_count schema.now block.now) result rows.old rows.new }
{
    c_table::block_check(schema, block, rows)
}

// One field, as its kind and plain numbers.
#[unsafe(no_mangle)]
pub extern "C" fn bv_block_field(
    schema: &[u8],
    block: &[u8],
    row: u32,
    column: u32,
    kind: &mut u8,
    whole: &mut i64,
    bits: &mut u64,
    nanos: &mut u32,
    start: &mut usize,
    length: &mut usize,
) -> u32
    ensures { FieldCall (block_field schema.now block.now row column) result
        (record { kind = kind.entry.now; whole = whole.old; bits = bits.old; nanos = nanos.old; start = start.old; length = length.old })
        (record { kind = kind.exit.now; whole = whole.new; bits = bits.new; nanos = nanos.new; start = start.new; length = length.new }) }
{
    c_table::block_field(
        schema, block, row, column, kind, whole, bits, nanos, start, length,
    )
}

// The fields of the rows from place on, as many whole rows as the list takes: three numbers for each field.
#[unsafe(no_mangle)]
pub extern "C" fn bv_block_page(
    schema: &[u8],
    block: &[u8],
    place: &mut u32,
    list: &mut [u64],
    given: &mut u32,
    rows: &mut u32,
) -> u32
    ensures { PageCall (block_page schema.now block.now place.old (length list.entry.now)) result
        (record { list = list.entry.now; place = place.old; given = given.old; rows = rows.old })
        (record { list = list.exit.now; place = place.new; given = given.new; rows = rows.new }) }
{
    c_list::block_page(schema, block, place, list, given, rows)
}
