// The codes and lines of the text of a view, for what stands on it.
ghost use Rattle.std.specs.Prelude.{◌≡◌, ◌≤◌, length, slice_index};
ghost use Rattle.lines.specs.Lines.{line_start, line_end};
ghost use Rattle.view.specs.Seen.{text_at};

use crate::view::View;
use codes::code::is_row_end;

// The code behind the place `i`, 0 past the end. Costs one question.
// stays: no Option, since it is asked within the text, where the layers know that there is one
pub fn code_at<V: View>(below: &V, i: u32) -> u32
    requires { V.Meaning.sound below.now }
    ensures { result ≡ slice_index (text_at V.Meaning below.now) i }
{
    below.code(i).unwrap_or(0)
}

// Where the line that holds `place` begins. Costs a question for each code of the line in front of it.
pub fn line_start<V: View>(below: &V, place: u32) -> u32
    requires sound { V.Meaning.sound below.now }
    requires within { place ≤ length (text_at V.Meaning below.now) }
    ensures { result ≡ line_start (text_at V.Meaning below.now) place }
{
    (0..place)
        .rev()
        .find(|i| is_row_end(code_at(below, *i)))
        .map_or(0, |i| i + 1)
}

// Where the line that holds `place` ends. Costs a question for each code of the line behind it.
pub fn line_end<V: View>(below: &V, place: u32) -> u32
    requires sound { V.Meaning.sound below.now }
    requires within { place ≤ length (text_at V.Meaning below.now) }
    ensures { result ≡ line_end (text_at V.Meaning below.now) place }
{
    let len = below.len();
    (place..len)
        .find(|i| is_row_end(code_at(below, *i)))
        .unwrap_or(len)
}
