//! Laws of the lines. The functions do nothing: their contracts are laws of the words that the calls'
//! contracts cite.

ghost use Rattle.pl_windows.specs.Laws.{RangesDivide, RowsReplayToWindows};

/// Who drops as many of the oldest cells of an asset as a line has, and adds the line's cells, holds on each
/// session of the range on which the asset exists exactly its window, as that session sees it.
pub fn rows_replay_to_windows()
    ensures { RowsReplayToWindows }
{}

/// The windows of a divided range are those of the whole but for the first line of each asset in a piece,
/// which has the whole window.
pub fn ranges_divide()
    ensures { RangesDivide }
{}
