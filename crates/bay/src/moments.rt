//! When something is due next.
ghost use Rattle.std.specs.Prelude.{◌≡◌, ◌≤◌, length};
ghost use Rattle.bay_book.specs.Moments.{sooner};
ghost use Rattle.bay.specs.Cores.{core};
ghost use Rattle.bay.specs.Following.{IsNextMoment};

use crate::classes::Class;
use crate::ending::full_classes;
use crate::terms::Terms;
use bay_book::Book;
use bay_line::Line;

/// The sooner of those that there are.
fn sooner(a: Option<u64>, b: Option<u64>) -> Option<u64>
    ensures { result ≡ sooner a b }
{
    match (a, b) {
        (Some(a), Some(b)) => Some(a.min(b)),
        (Some(a), None) => Some(a),
        (None, Some(b)) => Some(b),
        (None, None) => None,
    }
}

/// The next moment at which somebody's time is over, as things stand.
pub(crate) fn next_moment(classes: &[Class], terms: Terms, line: &Line, book: &Book) -> Option<u64>
    requires { length classes.now ≤ 32 }
    ensures { IsNextMoment classes.now terms (core line.now book.now) result }
{
    let wanted = line.wanted();
    let full = full_classes(classes, line, book);
    sooner(
        book.due(terms.grace, terms.disk),
        book.limit_due(wanted, full),
    )
}
