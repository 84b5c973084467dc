//! The laws.

ghost use Rattle.pl_lookahead.specs.Derivations.{LaterDataChangeNoDerivation};
ghost use Rattle.pl_lookahead.specs.Laws.{LaterDataChangeNoByte, OwnDaysInAnyOrder, SameFilesSameBytes, SameInputSameBytes};

/// Where the files and tables of two commands agree up to a session, and no reader refuses them, the tables
/// up to it are the same bytes, by `run` and by `daily`, for all sizes of chunks, whatever comes later. The
/// derivation of a cell up to it is the same lines, and the same bytes but for the codes of labels.
pub fn later_data_change_no_byte()
    ensures tables { LaterDataChangeNoByte }
    ensures derivations { LaterDataChangeNoDerivation }
{}

/// Tables of adjustments in which no two rows are of one asset and one day agree where they have the same
/// rows, in whatever order these stand.
pub fn own_days_in_any_order()
    ensures { OwnDaysInAnyOrder }
{}

/// Runs over the same files and tables write the same bytes, by `run` and by `daily`, for all sizes of
/// chunks.
pub fn same_files_same_bytes()
    ensures { SameFilesSameBytes }
{}

/// Runs on the same words that were given the same of their files and tables, and end with status 0, write
/// the same bytes, by every command and for all sizes of chunks.
pub fn same_input_same_bytes()
    ensures { SameInputSameBytes }
{}
