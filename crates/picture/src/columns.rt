//! Where columns begin.
ghost use Rattle.std.specs.Prelude.{◌≡◌, ◌<◌, ◌^◌};
ghost use Rattle.picture.specs.Columns.{has_room, left_of};

/// Whether there is room for texts: up to 38 columns are 100 units wide.
pub(crate) fn has_room(columns: u32) -> bool
    ensures { result ≡ has_room columns }
{
    columns <= 38
}

/// Where a column begins, in units.
#[tactic(auto, using(crate::proofs::Narrow::narrow_within), unfolding(crate::specs::Columns::left_of))]
pub(crate) fn left_of(columns: u32, column: usize) -> usize
    requires { column < 2 ^ 34 }
    ensures place { result ≡ left_of columns column }
    ensures small { result < 2 ^ 46 }
{
    if columns <= 38 {
        100 * column
    } else if columns <= 158 {
        24 * column
    } else {
        3800 * column / columns as usize
    }
}
