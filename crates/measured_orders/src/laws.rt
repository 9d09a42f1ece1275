//! What holds of measured orders. Each law is the contract of a function that does nothing.
ghost use Rattle.measured_orders.specs.Measures.{OneMeasure};
ghost use Rattle.measured_orders.specs.Orders.{BestIsNoWorse};

use script_reader::laws::one_meaning;

/// The run of a plan by at most so many rounds has one measure.
pub fn one_measure()
    ensures { OneMeasure }
{}

/// The text of the best order runs no worse than the script as it came, and no worse than the script that `arranged_script` made.
pub fn best_is_no_worse()
    ensures { BestIsNoWorse }
{
    one_meaning();
    one_measure();
}
