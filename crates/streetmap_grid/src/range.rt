ghost use Rattle.std.specs.Prelude.{◌≡◌};
ghost use Rattle.streetmap_grid.specs.Range as range;
ghost use Rattle.streetmap_grid.specs.Faults as faults;

const GREATEST_COORDINATE: i64 = 1_000_000_000;

const GREATEST_BOUND: i64 = 2_000_000_000;

/// Whether a number of millimetres is a coordinate of the grid.
pub(crate) fn is_coordinate(n: i64) -> bool
    ensures { result ≡ range.is_coordinate n }
{
    -GREATEST_COORDINATE <= n && n <= GREATEST_COORDINATE
}

/// Whether a number of millimetres is a bound of a box.
pub(crate) fn is_bound(n: i64) -> bool
    ensures { result ≡ range.is_bound n }
{
    -GREATEST_BOUND <= n && n <= GREATEST_BOUND
}

/// Whether a height, if given, is a coordinate of the grid.
pub(crate) fn is_height(z: Option<i64>) -> bool
    ensures { result ≡ faults.is_height z }
{
    match z {
        Some(height) => is_coordinate(height),
        None => true,
    }
}
