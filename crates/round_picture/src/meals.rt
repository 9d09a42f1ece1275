//! What is drawn of meals.
ghost use Rattle.std.specs.Prelude.{◌≡◌, ◌++◌, OnOk};
ghost use Rattle.std.specs.List.{flat_map};
ghost use Rattle.round_picture.specs.Meals.{stretch, hungry_line, eating_line, lines, meal_text};

use crate::scale::{add_place, place, width};
use crate::shapes::until;
use std::alloc::{AllocError, Allocator};
use waiting::Meal;

/// Adds a line from one round to another, without its look.
#[tactic(auto, unfolding(crate::specs::Meals::stretch))]
fn add_stretch<A: Allocator>(
    out: &mut Vec<u8, A>,
    last: u32,
    from: u32,
    to: u32,
) -> Result<(), AllocError>
    ensures { OnOk result (out.new.items ≡ out.old.items ++ stretch last from to) }
{
    add_place(out, b"<path d=\"M", place(last, from))?;
    add_place(out, b" 28h", width(last, from, to))
}

/// Adds the line of a job that is hungry.
#[tactic(auto, unfolding(crate::specs::Meals::hungry_line))]
fn add_hungry<A: Allocator>(
    out: &mut Vec<u8, A>,
    last: u32,
    from: u32,
    to: u32,
) -> Result<(), AllocError>
    ensures { OnOk result (out.new.items ≡ out.old.items ++ hungry_line last from to) }
{
    add_stretch(out, last, from, to)?;
    out.extend_from_slice(b"\" stroke=\"#777\" stroke-width=\"2\" stroke-dasharray=\"2 3\"/>")
}

/// Adds the line of a job that eats.
#[tactic(auto, unfolding(crate::specs::Meals::eating_line))]
fn add_eating<A: Allocator>(
    out: &mut Vec<u8, A>,
    last: u32,
    from: u32,
    to: u32,
) -> Result<(), AllocError>
    ensures { OnOk result (out.new.items ≡ out.old.items ++ eating_line last from to) }
{
    add_stretch(out, last, from, to)?;
    out.extend_from_slice(b"\" stroke=\"#222\" stroke-width=\"5\"/>")
}

/// Adds the lines of a meal.
fn add_lines<A: Allocator>(out: &mut Vec<u8, A>, last: u32, meal: &Meal) -> Result<(), AllocError>
    ensures { OnOk result (out.new.items ≡ out.old.items ++ lines last meal.now.hungry meal.now.sits meal.now.leaves) }
{
    match meal.sits {
        Some(sits) => {
            add_hungry(out, last, meal.hungry, sits)?;
            add_eating(out, last, sits, until(last, meal.leaves))
        }
        None => add_hungry(out, last, meal.hungry, last),
    }
}

/// Adds a meal.
#[tactic(auto, unfolding(crate::specs::Meals::meal_text))]
fn add_meal<A: Allocator>(out: &mut Vec<u8, A>, last: u32, meal: &Meal) -> Result<(), AllocError>
    ensures { OnOk result (out.new.items ≡ out.old.items ++ meal_text last meal.now) }
{
    add_lines(out, last, meal)?;
    out.extend_from_slice(b"\n")
}

/// Adds a job's meals.
pub(crate) fn add_meals<A: Allocator>(
    out: &mut Vec<u8, A>,
    last: u32,
    meals: &[Meal],
) -> Result<(), AllocError>
    ensures { OnOk result (out.new.items ≡ out.old.items ++ flat_map (meal_text last) meals.now) }
{
    for meal in meals {
        add_meal(out, last, meal)?;
    }
    Ok(())
}
