// Where a head or a line stands.
ghost use Rattle.std.specs.Prelude.{◌≡◌, ◌≢◌, ◌<◌, ◌&&◌, ◌++◌, ◌∷◌, [], All, IfSome, MatchOption, length, not, true};
ghost use Rattle.std.specs.Option.{option_map};
ghost use Rattle.dired_text.specs.Paths.{slash};
ghost use Rattle.dired_text.specs.Resolve.{components};
ghost use Rattle.section_rows.specs.Orders.{values_in};
ghost use Rattle.section_buffer.specs.Places.{head_place, is_head_of, is_line_of as is_line_of_path, line_place, same_names};
ghost use Rattle.section_buffer.specs.Buffers.{is_later_head as is_head_later};
ghost use Rattle.section_buffer.specs.Held.{IsBehind, IsRootFirst, FoundAt, dir_in, head_value, hidden_in};

use dired_text::{Name, Path, rest_below};
use link_rows::RowId;
use listing_text::Line;
use section_rows::{BufferRow, UndoRows};

// The text before its first slash and the text behind it, or None where it has none.
fn split_first(text: &str) -> Option<(&str, &str)>
    ensures { MatchOption result (All (λ b. b ≢ slash) text.now)
        (λ x. (text.now ≡ x.0.now ++ slash ∷ x.1.now) × (All (λ b. b ≢ slash) x.0.now)) }
{
    text.split_once('/')
}

// Whether these names are the parts of a text between its slashes.
fn are_parts(names: &[Name], text: &str) -> bool
    ensures { result ≡ same_names names.now (components text.now) }
{
    let [first, rest @ ..] = names else {
        return false;
    };
    match split_first(text) {
        None => first.as_str() == text && rest.is_empty(),
        Some((part, later)) => first.as_str() == part && are_parts(rest, later),
    }
}

// Whether a line of this directory is that of the path.
fn is_line_of(path: &Path, dir: &Path, line: &Line) -> bool
    ensures { result ≡ is_line_of_path path.now dir.now line.now }
{
    match rest_below(dir.names(), path.names()) {
        None => false,
        Some(rest) => are_parts(rest, line.name.as_str()),
    }
}

// Whether a line of the section of this head is shown and that of the path.
fn is_shown_at(rows: &UndoRows, head: Option<RowId>, path: &Path, line: &Line) -> bool
    requires { IfSome head (λ row. row.0 < length rows.now.values) }
    ensures { result ≡ (not (hidden_in
        (head_value rows.now.values (option_map (λ row. row.0) head))) &&
        is_line_of_path path.now
        (dir_in (head_value rows.now.values (option_map (λ row. row.0) head))) line.now) }
{
    let Some(head) = head else {
        return false;
    };
    match rows.get(head) {
        BufferRow::Head { dir, hidden } => !*hidden && is_line_of(path, dir, line),
        BufferRow::Line(_) => false,
    }
}

// Whether a row is the head of this directory's section.
fn is_head(row: &BufferRow, dir: &Path) -> bool
    ensures { result ≡ is_head_of dir.now row.now }
{
    match row {
        BufferRow::Head { dir: of, .. } => of == dir,
        BufferRow::Line(_) => false,
    }
}

// Whether a row is of the section of this directory; a line counts as one of the root's.
pub(crate) fn is_of(row: &BufferRow, dir: &Path) -> bool
    ensures { result ≡ same_names (dir_in (row.now ∷ [])) dir.now }
{
    match row {
        BufferRow::Head { dir: of, .. } => of == dir,
        BufferRow::Line(_) => dir.names().is_empty(),
    }
}

// The head of this directory's section.
pub(crate) fn head_row(rows: &UndoRows, dir: &Path) -> Option<RowId>
    ensures { FoundAt rows.now.order
        (head_place dir.now (values_in rows.now.values rows.now.order))
        (option_map (λ row. row.0) result) }
{
    rows.rows_differ();
    let mut at = rows.first();
    while let Some(row) = at {
        if is_head(rows.get(row), dir) {
            return Some(row);
        }
        at = rows.next(row);
    }
    None
}

// The row of the line of this path, where the section that has it is shown.
pub(crate) fn line_row(rows: &UndoRows, path: &Path) -> Option<RowId>
    ensures { FoundAt rows.now.order
        (line_place path.now [] true (values_in rows.now.values rows.now.order))
        (option_map (λ row. row.0) result) }
{
    rows.rows_differ();
    let mut head = None;
    let mut at = rows.first();
    while let Some(row) = at {
        match rows.get(row) {
            BufferRow::Head { .. } => head = Some(row),
            BufferRow::Line(line) => {
                if is_shown_at(rows, head, path, line) {
                    return Some(row);
                }
            }
        }
        at = rows.next(row);
    }
    None
}

// Whether a row is the head of a directory behind this one in the order of paths.
fn is_later_head(row: &BufferRow, dir: &Path) -> bool
    ensures { result ≡ is_head_later dir.now row.now }
{
    match row {
        BufferRow::Head { dir: of, .. } => dir < of,
        BufferRow::Line(_) => false,
    }
}

// The row behind which the section of this directory is put, the last before the heads of later directories, and how
// many rows stand up to it.
pub(crate) fn place_behind(rows: &UndoRows, dir: &Path) -> (Option<RowId>, usize)
    requires { IsRootFirst (values_in rows.now.values rows.now.order) }
    ensures { IsBehind rows.now dir.now (option_map (λ row. row.0) result.0) result.1 }
{
    rows.rows_differ();
    let _most = rows.len();
    let mut last = None;
    let mut count = 0;
    let mut at = rows.first();
    while let Some(row) = at {
        if is_later_head(rows.get(row), dir) {
            return (last, count);
        }
        last = Some(row);
        count += 1;
        at = rows.next(row);
    }
    (last, count)
}
