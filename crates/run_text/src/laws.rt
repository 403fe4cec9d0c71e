// What ties the counts of a table to its rows, as contracts of functions without a body.
ghost use Rattle.run_text.specs.Laws.{EachRowIsCountedOnce, ShortRowsAreCounted};

/// Where every row of a table is set, the ten counts add up to the number of rows.
pub fn each_row_is_counted_once()
    ensures { EachRowIsCountedOnce }
{}

/// A run ends with status 1 exactly where its summary counts a row as refused, lost or still in the queue.
pub fn short_rows_are_counted()
    ensures { ShortRowsAreCounted }
{}
