//! The laws of derivations and of their text. The functions do nothing: the contract of each is a law.
ghost use Rattle.pl_derivation.specs.Texts.{LinesAreRead, TextsAreRead};
ghost use Rattle.pl_derivation.specs.Walks.{WalksGrow};
ghost use Rattle.pl_derivation.specs.Lean.{DerivationsAreLean};
ghost use Rattle.pl_derivation.specs.Laws.{RightLinesAreTrue, RightIsTrue, RepeatsAreRight, DerivationsAreRight};

/// What was written of lines is read back.
pub fn texts_are_read()
    ensures { TextsAreRead }
{}

/// A text is read as a line exactly where it is the line's text.
pub fn lines_are_read()
    ensures { LinesAreRead }
{}

/// A list of right lines states the truth.
pub fn right_lines_are_true()
    ensures { RightLinesAreTrue }
{}

/// The derivation of a cell is right, and ends with the cell.
pub fn derivations_are_right()
    ensures { DerivationsAreRight }
{}

/// After right lines a line is right where its premises stand and it states the truth.
pub fn right_is_true()
    ensures { RightIsTrue }
{}

/// A fact that stands already is judged by its number alone.
pub fn repeats_are_right()
    ensures { RepeatsAreRight }
{}

/// A walk takes nothing back.
pub fn walks_grow()
    ensures { WalksGrow }
{}

/// The derivation of a cell has no gap and no line too many: what a line rests on stands before it, each
/// line but the last is what a later one rests on, and no fact has two lines.
pub fn derivations_are_lean()
    ensures { DerivationsAreLean }
{}
