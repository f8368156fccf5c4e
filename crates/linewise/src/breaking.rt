// How a line is broken into rows: one function of the codes, the width and the place at which a row begins.
ghost use Rattle.std.specs.Prelude.{◌≡◌};
ghost use Rattle.lines.specs.Wraps.{row_end};
ghost use Rattle.view.specs.Seen.{text_at};

use codes::code::{SPACE, is_row_end};
use view::reading::code_at;
use view::view::View;

// Where a row that begins at `start` ends: at the end of its line if that is at most `width` codes on; else behind the
// last space among the next `width` codes, or behind all of them if none is a space. Costs a question for each code of
// the row and one more.
pub fn row_end<V: View>(below: &V, width: u32, start: u32) -> u32
    requires { V.Meaning.sound below.now }
    ensures { result ≡ row_end width (text_at V.Meaning below.now) start }
{
    let len = below.len();
    if start >= len {
        return start;
    }
    let mut behind_space = None;
    // stays: three ways out and the last space kept; a chain is no plainer
    for i in start..len {
        let code = code_at(below, i);
        if is_row_end(code) {
            return i;
        }
        if i - start >= width {
            return behind_space.unwrap_or(i);
        }
        if code == SPACE {
            behind_space = Some(i + 1);
        }
    }
    len
}
