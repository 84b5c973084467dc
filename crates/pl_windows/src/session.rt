//! The lines of one session.

ghost use Rattle.std.specs.Prelude.{◌≡◌, ◌-◌, ◌<◌, ◌≤◌, length, pos, drop, All};
ghost use Rattle.pl_spec.specs.Parts.{sid_at};
ghost use Rattle.pl_spec.specs.Rounding.{IsCell};
ghost use Rattle.pl_spec.specs.Window.{bar_window};
ghost use Rattle.pl_outside.specs.Taken.{Writes};
ghost use Rattle.pl_windows.specs.Chunks.{IsTraversed};
ghost use Rattle.pl_windows.specs.Ranges.{IsAsked, IsSession, asked_line, asked_lines, asked_world, line_there};

use crate::asked::Asked;
use crate::change::cells_told;
use crate::line::{Place, write_line};
use pl_adjarray::Windows;
use pl_outside::{Failed, Sink};
use pl_table::Line;
use pl_world::exists;

/// Writes the lines of the session that a traversal has come to.
pub(crate) fn write_session<O: Sink>(
    asked: &Asked<'_>,
    session: usize,
    windows: &Windows<'_>,
    line: &mut Line,
    out: &mut O,
) -> Result<(), Failed>
    requires asked { IsAsked asked.now }
    requires session { IsSession asked.now session }
    requires windows { IsTraversed asked.now session windows.now }
    ensures { Writes O.taken O.faults O.sound O.room out.old out.new (asked_lines asked.now session 1) result }
{
    for col in 0..asked.world.assets.len() {
        write_there(asked, Place { col, session }, windows, line, out)?;
    }
    Ok(())
}

// Writes the line of an asset, where it exists on the session.
fn write_there<O: Sink>(
    asked: &Asked<'_>,
    place: Place,
    windows: &Windows<'_>,
    line: &mut Line,
    out: &mut O,
) -> Result<(), Failed>
    requires asked { IsAsked asked.now }
    requires session { IsSession asked.now place.session }
    requires col { place.col < length asked.now.world.assets.now }
    requires windows { IsTraversed asked.now place.session windows.now }
    ensures { Writes O.taken O.faults O.sound O.room out.old out.new
        (line_there asked.now place.session (sid_at asked.now.world.assets.now place.col)) result }
{
    if !exists(&asked.world, place.col, place.session) {
        return Ok(());
    }
    write_row(asked, place, windows, line, out)
}

// Writes the line of an asset that exists on the session.
fn write_row<O: Sink>(
    asked: &Asked<'_>,
    place: Place,
    windows: &Windows<'_>,
    line: &mut Line,
    out: &mut O,
) -> Result<(), Failed>
    requires asked { IsAsked asked.now }
    requires session { IsSession asked.now place.session }
    requires col { place.col < length asked.now.world.assets.now }
    requires windows { IsTraversed asked.now place.session windows.now }
    ensures { Writes O.taken O.faults O.sound O.room out.old out.new
        (asked_line asked.now place.session (sid_at asked.now.world.assets.now place.col)) result }
{
    let window = window_of(asked, place, windows);
    let cells = newest(window, cells_told(asked, place));
    write_line(asked, place, cells, line, out)
}

// The window of an asset on the session that the traversal has come to.
fn window_of<'w>(asked: &Asked<'_>, place: Place, windows: &'w Windows<'_>) -> &'w [i64]
    requires asked { IsAsked asked.now }
    requires col { place.col < length asked.now.world.assets.now }
    requires windows { IsTraversed asked.now place.session windows.now }
    ensures value { result.now ≡ bar_window (asked_world asked.now) asked.now.column asked.now.window
        (sid_at asked.now.world.assets.now place.col) (pos place.session) }
    ensures cells { All IsCell result.now }
{
    windows.window(place.col)
}

// The last cells of a window.
fn newest(window: &[i64], count: usize) -> &[i64]
    requires few { count ≤ length window.now }
    requires cells { All IsCell window.now }
    ensures value { result.now ≡ drop (length window.now - count) window.now }
    ensures cells { All IsCell result.now }
{
    &window[window.len() - count..]
}
