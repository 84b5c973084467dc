//! What the parts of a world are together, and the laws of the values of a checked pipeline. The functions do
//! nothing but ask for a size: what the types keep is enough.

ghost use Rattle.pl_spec.specs.Permuted.{HaveSameRows};
ghost use Rattle.pl_lifetimes.specs.Assets.{AreAssets};
ghost use Rattle.pl_assets.specs.Labels.{AreLabels};
ghost use Rattle.pl_world.specs.Laws.{EarlyBarsChangeNothing, LaterDataChangeNothing, ShowAlike};
ghost use Rattle.pl_terms.specs.Checked.{IsChecked, pipeline_of};
ghost use Rattle.pl_world.specs.Laws.{ValuesFollowNodes};
ghost use Rattle.pl_world.specs.Records.{NumbersInAnyOrder, RecordsInAnyOrder, RevisionsInAnyOrder};
ghost use Rattle.pl_world.specs.Worlds.{IsMade, PartsMakeAWorld, world_of};

use crate::world::World;
use pl_terms::Checked;

/// Parts that were made for the world's own sessions and assets make a world: the days of the sessions and
/// the sids of the assets ascend, the adjustments of an asset are in the order in which they act, and no two
/// bars, label rows or numbers are one bar, one label or one number.
pub fn parts_make_a_world(world: &World)
    requires { IsMade world.now }
    ensures { PartsMakeAWorld world.now }
{
    assets_and_labels(world);
    world.sessions.len();
    world.bars.len();
    world.adjustments.len();
    world.numbers.len();
}

/// The order of rows changes nothing: worlds with the same assets, label rows, bars, numbers and adjustments
/// show the same rows, written alike, in whatever order theirs are. Only the adjustments of one asset and one
/// day have an order that counts, that in which they act. The codes of labels go by the order of rows.
pub fn order_changes_nothing(world: &World, other: &World)
    requires made { IsMade world.now }
    requires other_made { IsMade other.now }
    ensures { HaveSameRows (world_of world.now) (world_of other.now)
        → ShowAlike (world_of world.now) (world_of other.now) }
{
    parts_make_a_world(world);
    parts_make_a_world(other);
}

/// Files whose records after the header are in another order are read where the first are, and their world
/// shows the same rows, written alike. The sessions alone have one order.
pub fn records_in_any_order()
    ensures { RecordsInAnyOrder }
{}

/// Records of numbers after the header may stand in another order: they are read as the same rows in some
/// order, and the worlds show the same rows, written alike.
pub fn numbers_in_any_order()
    ensures { NumbersInAnyOrder }
{}

/// Records of revisions after the header may stand in another order: the tables are the same. Of one asset
/// and one known day the revisions then act in another order, but each on a cell of its own.
pub fn revisions_in_any_order()
    ensures { RevisionsInAnyOrder }
{}

/// No bar before the reach of a term of a checked pipeline counts for its value.
pub fn early_bars_change_nothing(checked: &Checked)
    ensures { EarlyBarsChangeNothing checked.now }
{
    is_checked(checked);
}

/// A term of a checked pipeline has the value that its node gives over the values of the terms of lower
/// numbers that it mentions.
pub fn values_follow_nodes(checked: &Checked)
    ensures { ValuesFollowNodes checked.now }
{
    is_checked(checked);
}

/// What comes to be known later changes nothing: in worlds that agree up to a session, every term of a
/// checked pipeline has the same values up to it, and its table the same rows.
pub fn later_data_change_nothing(checked: &Checked)
    ensures { LaterDataChangeNothing checked.now }
{
    is_checked(checked);
}

// Assets and labels are as their types keep them.
pub(crate) fn assets_and_labels(world: &World)
    ensures assets { AreAssets world.now.assets.now }
    ensures labels { AreLabels world.now.labels.now }
{
    world.assets.len();
    world.labels.len();
}

// The terms, the columns and the screen are as the language allows.
fn is_checked(checked: &Checked)
    ensures { IsChecked (pipeline_of checked.now) }
{
    checked.graph();
}
