// What damages are proved to do: each law is the contract of a function that costs nothing.
ghost use Rattle.damage.specs.Laws.{RowsAreCounted, DamagePatches, DamagesCompose, DamagesStayBelow, WorkedExample};

// A text has one row more than it has row ends. Costs nothing.
pub fn rows_are_counted()
    ensures { RowsAreCounted }
{}

// Of any two texts and a change from one to the other: the damage fits the rows of both, and the old rows patched by it are
// the new rows. Costs nothing.
pub fn damage_patches()
    ensures { DamagePatches }
{}

// Of any three lists of rows: where one damage patches the first into the second and another the second into the third, the
// first damage followed by the other patches the first into the third; and where the first and the third have fewer than
// 2^32 rows, no number of that damage is cut. Costs nothing.
pub fn damages_compose()
    ensures patch { DamagesCompose }
    ensures below { DamagesStayBelow }
{}

// Two damages and what they make. Costs nothing.
pub fn example_holds()
    ensures { WorkedExample }
{}
