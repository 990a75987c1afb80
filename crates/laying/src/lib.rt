// Laws of the rows of a cue and of values laid in it, each on the contract of a function that does nothing else.
#![tactic(auto)]

ghost use Rattle.laying.specs.Laws.{ElementsApart, LayingKeeps, LooksStand, RowsFit};
ghost use Rattle.laying.specs.Lines.{LinesLaid};

// What the rows of an accepted cue are like.
pub fn rows_fit()
    ensures { RowsFit }
{}

// A look at a row and the bytes answers what the cue says.
pub fn looks_stand()
    ensures { LooksStand }
{}

// Elements stand in the bytes that a cue uses, each apart from the others.
pub fn elements_apart()
    ensures { ElementsApart }
{}

// Laying a value at an element changes just that value.
pub fn laying_keeps()
    ensures { LayingKeeps }
{}

// What looks at worked lines answer, and what laying in them gives.
pub fn lines_laid()
    ensures { LinesLaid }
{}
