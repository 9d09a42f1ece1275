//! How jobs are told apart.
ghost use Rattle.std.specs.Prelude.{◌≡◌, ◌+◌, ◌≤◌, ◌++◌, ◌<◌, length};
ghost use Rattle.picture.specs.Looks.{colour, dashes, look};

use crate::line::PictureLine;

/// Adds one of eight colours, 7 bytes.
#[tactic(auto, unfolding(crate::specs::Looks::colour))]
fn add_colour(line: &mut PictureLine, number: usize)
    requires { length line.old + 7 ≤ 1000 }
    ensures text { line.new ≡ line.old ++ colour number }
    ensures len { length line.new ≡ length line.old + 7 }
{
    match number {
        0 => line.text(b"#e69f00"),
        1 => line.text(b"#56b4e9"),
        2 => line.text(b"#009e73"),
        3 => line.text(b"#f0e442"),
        4 => line.text(b"#0072b2"),
        5 => line.text(b"#d55e00"),
        6 => line.text(b"#cc79a7"),
        _ => line.text(b"#999999"),
    }
}

/// Adds one of four looks of edges, at most 31 bytes.
#[tactic(auto, unfolding(crate::specs::Looks::dashes))]
fn add_dashes(line: &mut PictureLine, number: usize)
    requires { length line.old + 31 ≤ 1000 }
    ensures text { line.new ≡ line.old ++ dashes number }
    ensures len { length line.new ≤ length line.old + 31 }
{
    match number {
        0 => line.text(b""),
        1 => line.text(b" stroke-dasharray=\"7 3\""),
        2 => line.text(b" stroke-dasharray=\"2 2\""),
        _ => line.text(b" stroke-dasharray=\"10 3 2 3\""),
    }
}

/// Adds the look of a job, at most 100 bytes.
pub(crate) fn add_look(line: &mut PictureLine, job: usize)
    requires { length line.old + 100 ≤ 1000 }
    ensures text { line.new ≡ line.old ++ look job }
    ensures len { length line.new ≤ length line.old + 100 }
{
    line.text(b"\" fill=\"");
    add_colour(line, job % 8);
    line.text(b"\" fill-opacity=\"0.5\" stroke=\"#222\"");
    add_dashes(line, job / 8);
    line.text(b"/>");
}
