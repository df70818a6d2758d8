// Schemas.
ghost use Rattle.common.specs.Outcome.{CountCall};
ghost use Rattle.row_spec.specs.Schema.{column_count, column_of};
ghost use Rattle.c_table.specs.Outputs.{ColumnCall};

use crate::counts::set_count;

// The number of columns.
pub fn schema_check(schema: &[u8], columns: &mut u32) -> u32
    ensures { CountCall (column_count schema.now) result columns.old columns.new }
{
    set_count(schema::check(schema), columns)
}

// One column: its type's id, whether it may be null, its length or precision, its scale.
pub fn schema_column(
    schema: &[u8],
    column: u32,
    id: &mut u8,
    nullable: &mut u8,
    size: &mut u32,
    scale: &mut u32,
) -> u32
    ensures { ColumnCall (column_of schema.now column) result
        (record { id = id.entry.now; nullable = nullable.old; size = size.old; scale = scale.old })
        (record { id = id.exit.now; nullable = nullable.new; size = size.new; scale = scale.new }) }
{
    match schema::column(schema, column) {
        Err(refusal) => refusal.into(),
        Ok(c) => {
            let t = values::show_type(c.ty);
            *id = t.id;
            *nullable = c.nullable as u8;
            *size = t.size;
            *scale = t.scale;
            0
        }
    }
}
