ghost use Rattle.std.specs.Prelude.{◌≡◌, decimal};
ghost use Rattle.rv_drawing.specs.Places.{column_x, row_y, width_of, height_of};

use itoa::Buffer;

/// A number in decimal digits, which stand in the buffer.
pub(crate) fn digits(buffer: &mut Buffer, number: u128) -> &[u8]
    ensures { result.now ≡ decimal number }
{
    buffer.format(number).as_bytes()
}

/// Where a column begins.
pub(crate) fn column_x(column: u64) -> u128
    ensures { result ≡ column_x column }
{
    456 + 14 * u128::from(column)
}

/// Where a row begins, below the legend. The cycle numbers stand again in front of every fortieth.
pub(crate) fn row_y(place: usize) -> u128
    ensures { result ≡ row_y place }
{
    44 + 18 * (place as u128 + place as u128 / 40)
}

/// How wide a picture of so many columns is.
pub(crate) fn width(columns: u64) -> u128
    ensures { result ≡ width_of columns }
{
    column_x(columns) + 152
}

/// How high a picture of so many rows is.
pub(crate) fn height(rows: usize) -> u128
    ensures { result ≡ height_of rows }
{
    row_y(rows) + 94
}
