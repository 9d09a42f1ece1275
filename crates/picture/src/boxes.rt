//! What is drawn in the row of an instrument.
ghost use Rattle.std.specs.Prelude.{◌≡◌, ◌+◌, ◌*◌, ◌-◌, ◌≤◌, ◌++◌, ◌<◌, ◌^◌, length};
ghost use Rattle.report_reader.specs.Form.{entry_text};
ghost use Rattle.picture.specs.Boxes.{edges, edges_end, label, session_title, named_box, titled_box};
ghost use Rattle.picture.specs.Boxes.{box_text, tick, deed, deed_title, tick_at, tick_text, entry_line};

use crate::columns::{has_room, left_of};
use crate::line::{PictureLine, add_name};
use crate::looks::add_look;
use report_reader::EntryLine;
use timeline::Span;

/// How the edges of a box end.
fn edges_end(is_open: bool) -> &'static [u8]
    ensures text { result.now ≡ edges_end is_open }
    ensures len { length result.now ≤ 1 }
{
    if is_open { b"" } else { b"z" }
}

/// Adds the edges of a box, without the right one if it is open, at most 90 bytes.
fn add_edges(line: &mut PictureLine, left: usize, right: usize, is_open: bool)
    requires { length line.old + 90 ≤ 1000 }
    ensures text { line.new ≡ line.old ++ edges left right is_open }
    ensures len { length line.new ≤ length line.old + 90 }
{
    line.text(b"<path d=\"M");
    line.count(right);
    line.text(b" 4H");
    line.count(left);
    line.text(b"v58H");
    line.count(right);
    line.text(edges_end(is_open));
}

/// Adds the names of a job and a session, at most 170 bytes.
fn add_label(line: &mut PictureLine, x: usize, entry: &EntryLine)
    requires { length line.old + 170 ≤ 1000 }
    ensures text { line.new ≡ line.old ++ label x (entry_text entry.now) }
    ensures len { length line.new ≤ length line.old + 170 }
{
    line.text(b"<text x=\"");
    line.count(x);
    line.text(b"\" y=\"17\" font-weight=\"bold\">");
    add_name(line, entry.job);
    line.text(b"</text><text x=\"");
    line.count(x);
    line.text(b"\" y=\"29\">session ");
    line.number(entry.session);
    line.text(b"</text>\n");
}

/// Adds the same under the pointer, at most 60 bytes.
fn add_session_title(line: &mut PictureLine, entry: &EntryLine)
    requires { length line.old + 60 ≤ 1000 }
    ensures text { line.new ≡ line.old ++ session_title (entry_text entry.now) }
    ensures len { length line.new ≤ length line.old + 60 }
{
    line.text(b"<g><title>");
    add_name(line, entry.job);
    line.text(b" session ");
    line.number(entry.session);
    line.text(b"</title>");
}

/// Adds a box with its names in it, at most 360 bytes.
fn add_named_box(
    line: &mut PictureLine,
    job: usize,
    left: usize,
    right: usize,
    is_open: bool,
    entry: &EntryLine,
)
    requires room { length line.old + 360 ≤ 1000 }
    requires wide { left + 100 ≤ right }
    ensures text { line.new ≡ line.old ++ named_box job left right is_open (entry_text entry.now) }
    ensures len { length line.new ≤ length line.old + 360 }
{
    add_edges(line, left, right, is_open);
    add_look(line, job);
    add_label(line, left + 4, entry);
}

/// Adds a box with its names under the pointer, at most 360 bytes.
fn add_titled_box(
    line: &mut PictureLine,
    job: usize,
    left: usize,
    right: usize,
    is_open: bool,
    entry: &EntryLine,
)
    requires { length line.old + 360 ≤ 1000 }
    ensures text { line.new ≡ line.old ++ titled_box job left right is_open (entry_text entry.now) }
    ensures len { length line.new ≤ length line.old + 360 }
{
    add_session_title(line, entry);
    add_edges(line, left, right, is_open);
    add_look(line, job);
    line.text(b"</g>\n");
}

/// Adds the box of an entry's session, at most 360 bytes.
#[tactic(auto, unfolding(crate::specs::Boxes::box_text))]
fn add_box(
    line: &mut PictureLine,
    job: usize,
    columns: u32,
    span: Span,
    is_open: bool,
    entry: &EntryLine,
)
    requires { length line.old + 360 ≤ 1000 }
    ensures text { line.new ≡ line.old ++ box_text job columns span is_open (entry_text entry.now) }
    ensures len { length line.new ≤ length line.old + 360 }
{
    let left = left_of(columns, span.start as usize);
    let right = left_of(columns, span.start as usize + span.width as usize);
    if right.saturating_sub(left) >= 100 {
        add_named_box(line, job, left, right, is_open, entry);
    } else {
        add_titled_box(line, job, left, right, is_open, entry);
    }
}

/// Adds the tick of an entry, at most 60 bytes.
fn add_tick(line: &mut PictureLine, x: usize)
    requires { length line.old + 60 ≤ 1000 }
    ensures text { line.new ≡ line.old ++ tick x }
    ensures len { length line.new ≤ length line.old + 60 }
{
    line.text(b"<path d=\"M");
    line.count(x);
    line.text(b" 35v27\" stroke=\"#222\"/>");
}

/// Adds what an entry did and what its dial showed, at most 130 bytes.
fn add_deed(line: &mut PictureLine, x: usize, entry: &EntryLine)
    requires { length line.old + 130 ≤ 1000 }
    ensures text { line.new ≡ line.old ++ deed x (entry_text entry.now) }
    ensures len { length line.new ≤ length line.old + 130 }
{
    line.text(b"<text x=\"");
    line.count(x);
    line.text(b"\" y=\"44\">");
    line.verb(entry.verb);
    line.text(b"</text><text x=\"");
    line.count(x);
    line.text(b"\" y=\"56\">= ");
    line.number(entry.value);
    line.text(b"</text>\n");
}

/// Adds the same under the pointer, at most 60 bytes.
fn add_deed_title(line: &mut PictureLine, entry: &EntryLine)
    requires { length line.old + 60 ≤ 1000 }
    ensures text { line.new ≡ line.old ++ deed_title (entry_text entry.now) }
    ensures len { length line.new ≤ length line.old + 60 }
{
    line.text(b"<g><title>");
    line.verb(entry.verb);
    line.text(b" = ");
    line.number(entry.value);
    line.text(b"</title>");
}

/// Adds a tick with what its entry did, at most 190 bytes.
fn add_tick_at(line: &mut PictureLine, columns: u32, x: usize, entry: &EntryLine)
    requires room { length line.old + 190 ≤ 1000 }
    requires small { x < 2 ^ 46 }
    ensures text { line.new ≡ line.old ++ tick_at columns x (entry_text entry.now) }
    ensures len { length line.new ≤ length line.old + 190 }
{
    if has_room(columns) {
        add_tick(line, x);
        add_deed(line, x + 4, entry);
    } else {
        add_deed_title(line, entry);
        add_tick(line, x);
        line.text(b"</g>\n");
    }
}

/// Adds the tick of an entry with what it did, at most 190 bytes.
#[tactic(auto, unfolding(crate::specs::Boxes::tick_text))]
fn add_tick_text(line: &mut PictureLine, columns: u32, span: Span, entry: &EntryLine)
    requires { length line.old + 190 ≤ 1000 }
    ensures text { line.new ≡ line.old ++ tick_text columns span (entry_text entry.now) }
    ensures len { length line.new ≤ length line.old + 190 }
{
    let column = span.start as usize + entry.place.saturating_sub(1) as usize;
    let x = left_of(columns, column);
    add_tick_at(line, columns, x, entry);
}

/// An entry: its tick, and the box of its session if it is the first entry of it.
pub(crate) fn entry_line(
    job: usize,
    columns: u32,
    span: Span,
    is_first: bool,
    is_open: bool,
    entry: &EntryLine,
) -> PictureLine
    ensures { result ≡ entry_line job columns span is_first is_open (entry_text entry.now) }
{
    let mut line = PictureLine::new();
    if is_first {
        add_box(&mut line, job, columns, span, is_open, entry);
    }
    add_tick_text(&mut line, columns, span, entry);
    line
}
