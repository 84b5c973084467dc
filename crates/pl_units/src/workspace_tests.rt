//! Two slots of two cells: what is written, lent and counted, worked by hand.
#![tactic(auto)]

ghost use Rattle.std.specs.Prelude.{◌≡◌, ◌<◌, length, slice_set};

use pl_workspace::{Buffer, Workspace};
use std::test::*;

fn write(buffer: &mut Buffer, i: usize, cell: i64)
    requires { i < length buffer.old.cells }
    ensures slot { buffer.new.slot ≡ buffer.old.slot }
    ensures cells { buffer.new.cells ≡ slice_set buffer.old.cells i cell }
{
    buffer.cells_mut()[i] = cell;
}

#[test]
fn slots_are_lent_and_counted(rt: HostRuntime) -> Result<(), Fail> {
    let mut workspace = Workspace::reserve(rt.alloc(), 2, 2)?;
    let mut first = workspace.begin(0);
    let second = workspace.begin(1);
    write(&mut first, 0, 7);
    write(&mut first, 1, -8);
    assert!(rt; first.cells() == [7, -8].as_slice());
    workspace.finish(1, second);
    workspace.finish(0, first);
    assert!(rt; workspace.array(0) == [7, -8].as_slice());
    workspace.release(1);
    assert!(rt; workspace.live() == 1);
    assert!(rt; workspace.peak() == 2);
    Ok(())
}
