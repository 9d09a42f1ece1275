//! The lines of a picture.
ghost use Rattle.std.specs.Prelude.{◌≡◌, ◌+◌, ◌≤◌, ◌++◌, length};
ghost use Rattle.picture.specs.Looks.{name_text};

use lab_plan::name::is_name;
use report::Line;

/// A line of a picture has at most 1000 bytes.
pub(crate) type PictureLine = Line<1000>;

/// Adds a name, or `?` in place of what is no name, at most 16 bytes.
pub(crate) fn add_name(line: &mut PictureLine, name: &[u8])
    requires { length line.old + 16 ≤ 1000 }
    ensures text { line.new ≡ line.old ++ name_text name.now }
    ensures len { length line.new ≤ length line.old + 16 }
{
    if is_name(name) {
        line.text(name);
    } else {
        line.text(b"?");
    }
}
