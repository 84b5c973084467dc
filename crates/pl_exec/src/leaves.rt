//! Constants, sids, labels, numbers and tests of labels, for an asset on all sessions at once, kept or not.
ghost use Rattle.std.specs.Prelude.{◌≡◌, true, length};
ghost use Rattle.pl_pipeline.specs.Kind.Kind.{Constant, Label, Number};
ghost use Rattle.pl_values.specs.Families.{is_label_test, is_sids};
ghost use Rattle.pl_exec.specs.ChunkInputs.{AreGiven, IsLane, node_in};

use crate::course::Lane;
use crate::points::operand;
use pl_terms::Figure;
use pl_values::{kind_of, label_test_values, label_value, sids_value};

/// A constant.
pub(crate) fn constant_lane(lane: &Lane<'_>, value: i64, out: &mut [i64])
    requires lane { IsLane lane.now }
    requires kind { (node_in lane.now.course.now).kind ≡ Constant value }
    requires long { length out.old ≡ lane.now.course.now.count }
    ensures { AreGiven lane.now.course.now lane.now.i out.new }
{
    out.fill(value);
}

/// Whether the asset's sid is listed.
pub(crate) fn sids_lane(lane: &Lane<'_>, out: &mut [i64])
    requires lane { IsLane lane.now }
    requires kind { is_sids (node_in lane.now.course.now).kind ≡ true }
    requires long { length out.old ≡ lane.now.course.now.count }
    ensures { AreGiven lane.now.course.now lane.now.i out.new }
{
    let chunk = lane.course.chunk;
    let sid = chunk.world.assets.sid(chunk.cols[lane.i] as usize);
    out.fill(sids_value(kind_of(lane.course.node), sid));
}

/// The asset's labels by their codes; `name` is the number of the label's name.
pub(crate) fn label_lane(lane: &Lane<'_>, name: u32, out: &mut [i64])
    requires lane { IsLane lane.now }
    requires kind { (node_in lane.now.course.now).kind ≡ Label name }
    requires long { length out.old ≡ lane.now.course.now.count }
    ensures { AreGiven lane.now.course.now lane.now.i out.new }
{
    let chunk = lane.course.chunk;
    let labels = chunk.world.labels;
    let name = chunk.checked.label_name(name);
    let number = labels.name_of(name);
    let col = chunk.cols[lane.i] as usize;
    for j in 0..out.len() {
        let day = chunk.world.sessions.day(lane.course.low + j);
        out[j] = label_value(labels, name, number, col, day);
    }
}

/// The asset's numbers, or their ages; `name` is the number of their name.
pub(crate) fn number_lane(lane: &Lane<'_>, figure: Figure, name: u32, out: &mut [i64])
    requires lane { IsLane lane.now }
    requires kind { (node_in lane.now.course.now).kind ≡ Number figure name }
    requires long { length out.old ≡ lane.now.course.now.count }
    ensures { AreGiven lane.now.course.now lane.now.i out.new }
{
    let chunk = lane.course.chunk;
    let name = chunk.checked.label_name(name);
    let col = chunk.cols[lane.i] as usize;
    chunk.world.numbers.fill_under(
        figure,
        name,
        col,
        chunk.world.sessions,
        lane.course.low,
        out,
    );
}

/// What the test says of the asset's labels, which are the first input.
pub(crate) fn label_test_lane(lane: &Lane<'_>, out: &mut [i64])
    requires lane { IsLane lane.now }
    requires kind { is_label_test (node_in lane.now.course.now).kind ≡ true }
    requires long { length out.old ≡ lane.now.course.now.count }
    ensures { AreGiven lane.now.course.now lane.now.i out.new }
{
    let codes = operand(lane, &lane.sources.first, 0);
    let chunk = lane.course.chunk;
    label_test_values(kind_of(lane.course.node), chunk.world.labels, codes, out);
}
