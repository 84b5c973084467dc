//! The laws of the files of a cut.
ghost use Rattle.pl_pieces.specs.Laws.{CommandsCoverTheRange, CutFilesHaveTheRows, CutsCanBeHeld};
ghost use Rattle.pl_pieces.specs.Laws.{LaterDataChangeNoPiece, PartsReadBack, RunsWithoutResultsStay};

/// The readers over the texts of all parts of a world give these parts.
pub fn parts_read_back()
    ensures { PartsReadBack }
{}

/// What was read without a fault can be held by files and tables, and so can each cut of it.
pub fn cuts_can_be_held()
    ensures { CutsCanBeHeld }
{}

/// The span of the command cut covers the range of its table.
pub fn commands_cover_the_range()
    ensures { CommandsCoverTheRange }
{}

/// A run over the files that the command cut writes prints the bytes that the run over the whole prints for
/// the range. It names the numbers of both files as those of one, and where no results are named it is the
/// same run.
pub fn cut_files_have_the_rows()
    ensures rows { CutFilesHaveTheRows }
    ensures same { RunsWithoutResultsStay }
{}

/// Where contents agree up to a session, runs over their cut files print the same bytes up to it.
pub fn later_data_change_no_piece()
    ensures { LaterDataChangeNoPiece }
{}
