//! What holds of every picture.
ghost use Rattle.std.specs.Prelude.{ℕ, ◌≤◌};
ghost use Rattle.round_picture.specs.Gantt.{full_width};

/// However many rounds a run has, its picture is at most 4180 units wide.
#[tactic(auto, using(crate::proofs::Narrow::full_within))]
pub fn pictures_are_narrow()
    ensures { (last : ℕ) → full_width last ≤ 4180 }
{}
