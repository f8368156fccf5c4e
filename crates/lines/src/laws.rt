// What tab stops and soft wrap are proved to do: each law is the contract of a function that costs nothing.
ghost use Rattle.lines.specs.Laws.{TabsEndAtStops, RowsFit, RowsWellBroken, BreaksTakenOut, ShortLinesStay, LongLinesBreak, LinesWrapAlone};
ghost use Rattle.lines.specs.Examples.{WorkedExamples};

// Tab stops, at any width but 0. A tab is shown by at least one code and at most as many as the width, and what follows
// it stands at a stop: its column in the line that is shown is a multiple of the width. Costs nothing.
pub fn tab_stops_hold()
    ensures { TabsEndAtStops }
{}

// Soft wrap, at any width but 0. No row is longer than the width. Over a text with no soft breaks of its own, a row that
// one closes ends with a space, or holds no space and is full. The soft breaks taken out of both, the text is the one
// below. The rest of a line is shown as it is where it fits; else a first row of it is shown, then a soft break, and what
// is left is wrapped in turn; what stands behind a row end is wrapped by itself. Costs nothing.
pub fn soft_wrap_holds()
    ensures fit { RowsFit }
    ensures broken { RowsWellBroken }
    ensures taken_out { BreaksTakenOut }
    ensures short { ShortLinesStay }
    ensures long { LongLinesBreak }
    ensures alone { LinesWrapAlone }
{}

// Some short texts, what is shown of them and where their places lie. Costs nothing.
pub fn examples_hold()
    ensures { WorkedExamples }
{}
