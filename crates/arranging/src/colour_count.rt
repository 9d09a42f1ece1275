//! How many colours there are.
ghost use Rattle.std.specs.Prelude.{◌<◌};
ghost use Rattle.std.specs.List.{All};
ghost use Rattle.arranging.specs.Colours.{IsLeast};

/// One more than the highest colour, and 0 if there is none.
pub(crate) fn count_of(colours: &[u8]) -> usize
    ensures above { All (λ colour. colour < result) colours.now }
    ensures least { IsLeast colours.now result }
{
    let mut count = 0;
    for colour in colours {
        count = (*colour as usize + 1).max(count);
    }
    count
}
