//! What holds of arranged scripts. Each law is the contract of a function that does nothing.
ghost use Rattle.arranged_scripts.specs.Arranged.{ArrangedTextsHaveShortChains};
ghost use Rattle.arranged_scripts.specs.Blocks.{HasOneCut};

use arranging::laws::arranged_chains_are_short;
use script_reader::laws::one_meaning;

/// Whatever plan an arranged text means, at its opening no chain of precedence has more jobs than there are colours.
pub fn arranged_texts_have_short_chains()
    ensures { ArrangedTextsHaveShortChains }
{
    one_meaning();
    arranged_chains_are_short();
}

/// A text is cut into a head and blocks in one way.
pub fn texts_are_cut_in_one_way()
    ensures { HasOneCut }
{}
