// What is claimed of lists of lines as a whole, each claim in a contract, so that it is proved with every check.
#![tactic(auto)]

ghost use Rattle.spends.specs.Lines.{ErgsAccounted, SpendIsErgsLess};
ghost use Rattle.spends.specs.Rows.{RowsAddUp};

// After any lines of which none is refused, what the places up to the depth hold and what all frames hold are together the starting ergs.
pub fn ergs_accounted()
    ensures { ErgsAccounted }
{}

// After a line that begins at depth 1 or leads there, the spend at depth 1 is the starting ergs less the total.
pub fn spend_is_ergs_less()
    ensures { SpendIsErgsLess }
{}

// What nearbook prints for any input whose second line gives the starting ergs; another prints no row. In each row `own` is the sum of the charges of the rows after the
// one that opened its frame, of all rows where none did; at depth 1 it is the starting ergs less `total`.
pub fn rows_add_up()
    ensures { RowsAddUp }
{}
