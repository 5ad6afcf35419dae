// The sum of the numbers in rows.
ghost use Rattle.std.specs.Prelude.{◌≡◌, ◌+◌, ◌%◌, ◌^◌};
ghost use Rattle.std.specs.List.{sum_by};
ghost use Rattle.std.specs.Map.Iter.{deref_pair};
ghost use Rattle.bench_command.specs.Tallies.{bits_of};

use aria_base::{Key, Row, Value};

/// The sum of all whole numbers in the columns of these rows, modulo 2^64. No memory.
pub(crate) fn sum_rows(rows: &[(&Key, &Row)]) -> u64
    ensures { result ≡ sum_by (λ row. sum_by bits_of (deref_pair row).1) rows.now % 2 ^ 64 }
{
    let mut sum = 0;
    for (_, row) in rows {
        sum = with_row(sum, row.as_slice());
    }
    sum
}

/// With the numbers of these columns.
fn with_row(start: u64, columns: &[Value]) -> u64
    ensures { result ≡ (start + sum_by bits_of columns.now) % 2 ^ 64 }
{
    let mut sum = start;
    for column in columns {
        sum = with_column(sum, column);
    }
    sum
}

/// With the number of this column, where it is one.
fn with_column(sum: u64, column: &Value) -> u64
    ensures { result ≡ (sum + bits_of column.now) % 2 ^ 64 }
{
    match column {
        Value::Int(number) => sum.wrapping_add_signed(*number),
        Value::Text(_) => sum,
    }
}
