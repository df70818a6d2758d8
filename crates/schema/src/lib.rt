#![tactic(auto)]

// Schemas: the columns of a row block or a bucket, read from bytes. Every fault is the refusal 20.
ghost use Rattle.std.specs.Prelude.{◌≡◌, ◌≤◌};
ghost use Rattle.common.specs.Refusal.{outcome};
ghost use Rattle.row_spec.specs.Schema.{column_count, column_of};

use common::Refusal;
use row_spec::Column;

mod parse;

pub use parse::read;

// How many columns the schema has.
pub fn check(bytes: &[u8]) -> Result<u32, Refusal>
    ensures { outcome result ≡ column_count bytes.now }
{
    Ok(read(bytes)?.count as u32)
}

// Column i of the schema; 25 if there is none.
pub fn column(bytes: &[u8], i: u32) -> Result<Column, Refusal>
    ensures { outcome result ≡ column_of bytes.now i }
{
    let schema = read(bytes)?;
    if schema.count <= i as usize {
        return Err(Refusal::Absent);
    }
    Ok(schema.columns[i as usize])
}
