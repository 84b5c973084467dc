//! What the cells of a numbered term are, over the cells of the terms that it mentions. The functions do
//! nothing: the contract of each is a law.
ghost use Rattle.pl_values.specs.Laws.{UnkeptCells, ConstantCells, WindowCells, PointCells, PointOperands, SidCells, LabelCells, NumberCells, LabelTestCells, SectionCells, DownsampledCells, FilterCells, TextsHaveCodes};
ghost use Rattle.pl_values.specs.Views.{KeptCells, OwnCells, UnkeptSeen, SeenWindowCells, SeenPointCells};

/// In a checked pipeline the cell of a term for an asset on a session is the empty one where the asset does
/// not exist or does not pass the term's mask, and else what the call of its kind's family gives over the
/// cells of its inputs; what the calls ask for holds.
pub fn cells_are_given()
    ensures unkept { UnkeptCells }
    ensures constants { ConstantCells }
    ensures windows { WindowCells }
    ensures points { PointCells }
    ensures operands { PointOperands }
    ensures sids { SidCells }
    ensures labels { LabelCells }
    ensures numbers { NumberCells }
    ensures label_tests { LabelTestCells }
    ensures sections { SectionCells }
    ensures downsampled { DownsampledCells }
{}

/// From wherever it is seen, a term is empty where the asset is not kept, and one that keeps its values is as
/// it is; a formula or a filter over windows, and an operation that moves, is what the call of its family gives
/// over windows and operands as they are seen, and what the calls ask for holds.
pub fn cells_are_seen()
    ensures own { OwnCells }
    ensures unkept { UnkeptSeen }
    ensures kept { KeptCells }
    ensures windows { SeenWindowCells }
    ensures points { SeenPointCells }
{}

/// The cells of a filter are 0 and 1.
pub fn filters_are_flags()
    ensures { FilterCells }
{}

/// In the world of a table of labels each text has a code.
pub fn texts_have_codes()
    ensures { TextsHaveCodes }
{}
