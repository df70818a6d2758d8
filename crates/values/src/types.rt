// A type as plain numbers.
ghost use Rattle.std.specs.Prelude.{◌≡◌};
ghost use Rattle.row_spec.specs.Answer.{as_type, type_shown};

use row_spec::{ColumnType, TypeShown};

// A type's id, size and scale.
fn numbers_of(id: u8, size: u32, scale: u32) -> TypeShown
    ensures { result ≡ as_type id size scale }
{
    TypeShown { id, size, scale }
}

// A type as plain numbers.
pub fn show_type(t: ColumnType) -> TypeShown
    ensures { result ≡ type_shown t }
{
    match t {
        ColumnType::Boolean => numbers_of(0, 0, 0),
        ColumnType::TinyInt => numbers_of(1, 0, 0),
        ColumnType::SmallInt => numbers_of(2, 0, 0),
        ColumnType::Int => numbers_of(3, 0, 0),
        ColumnType::BigInt => numbers_of(4, 0, 0),
        ColumnType::Float => numbers_of(5, 0, 0),
        ColumnType::Double => numbers_of(6, 0, 0),
        ColumnType::Date => numbers_of(7, 0, 0),
        ColumnType::Char { length } => numbers_of(8, length, 0),
        ColumnType::Varchar { length } => numbers_of(9, length, 0),
        ColumnType::String => numbers_of(10, 0, 0),
        ColumnType::Binary { length } => numbers_of(11, length, 0),
        ColumnType::Varbinary { length } => numbers_of(12, length, 0),
        ColumnType::Bytes => numbers_of(13, 0, 0),
        ColumnType::Decimal { precision, scale } => numbers_of(14, precision, scale),
        ColumnType::Time { precision } => numbers_of(15, precision, 0),
        ColumnType::Timestamp { precision } => numbers_of(16, precision, 0),
    }
}
