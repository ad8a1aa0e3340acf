//! Where columns and lanes lie, and how large a picture is.
ghost use Rattle.std.specs.Prelude.{◌≡◌, ◌≤◌};
ghost use Rattle.k42_limits.specs.declared.TheConstants.{CALLERS};
ghost use Rattle.record_picture.specs.declared.window.TheConstants.{COLUMNS};
ghost use Rattle.record_picture.specs.Measures as measured;

pub fn column_left(column: u32) -> u64
    ensures { result ≡ measured.column_left column }
{
    130 + 152 * u64::from(column)
}

pub fn lane_top(lane: u32) -> u64
    ensures { result ≡ measured.lane_top lane }
{
    64 + 72 * u64::from(lane)
}

pub fn width_of(columns: u32) -> u64
    ensures { result ≡ measured.width_of columns }
{
    column_left(columns.max(6))
}

pub fn height_of(lanes: u32) -> u64
    ensures { result ≡ measured.height_of lanes }
{
    lane_top(lanes) + 8
}
