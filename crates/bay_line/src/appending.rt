//! Somebody stands behind all others.
ghost use Rattle.std.specs.Prelude.{◌≡◌, ◌++◌, OnOk, OnErr};
ghost use Rattle.bay_line.specs.Lines.{wishes_of};

use crate::wish::Wish;
use std::alloc::{AllocError, Global};

/// The wishes of this ask stand behind all others. It takes memory.
pub(crate) fn append(
    wishes: &mut Vec<Wish, Global>,
    ask: u64,
    sets: &[u64],
    classes: u32,
    deadline: Option<u64>,
) -> Result<(), AllocError>
    ensures appends { OnOk result (wishes.new.items ≡ wishes.old.items ++ wishes_of ask sets.now classes deadline) }
    ensures refused { OnErr result (wishes.new.items ≡ wishes.old.items) }
{
    let len = wishes.len();
    for place in 0..sets.len() {
        let wish = Wish {
            ask,
            needs: sets[place],
            classes,
            deadline,
            passed: 0,
        };
        if wishes.push(wish).is_err() {
            wishes.truncate(len);
            return Err(AllocError);
        }
    }
    Ok(())
}
