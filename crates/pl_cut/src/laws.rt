//! The laws of cut worlds.
ghost use Rattle.pl_cut.specs.Laws.{AgreeingWorldsShareTables, CutsAgree, CutsHaveTheRows};
ghost use Rattle.pl_cut.specs.Laws.{AbsentAssetsChangeNothing, PiecesMakeTheTable};

/// Worlds that show the same from a session to another have the same rows on every range whose terms reach no
/// farther back, and these are written alike.
pub fn agreeing_worlds_share_tables()
    ensures { AgreeingWorldsShareTables }
{}

/// The cut of a world is a world, and shows what the whole shows.
pub fn cuts_agree()
    ensures { CutsAgree }
{}

/// Over the cut of a world a range has the rows of the whole, and these are written alike.
pub fn cuts_have_the_rows()
    ensures { CutsHaveTheRows }
{}

/// The pieces of a range, each over a cut of its own, have the rows of the range.
pub fn pieces_make_the_table()
    ensures { PiecesMakeTheTable }
{}

/// An asset that exists on no session that a range reads changes no row.
pub fn absent_assets_change_nothing()
    ensures { AbsentAssetsChangeNothing }
{}
