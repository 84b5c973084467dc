//! One line.

ghost use Rattle.std.specs.Prelude.{◌≡◌, ◌+◌, ◌<◌, ◌≤◌, ◌++◌, ◌^◌, [], ◌∷◌, length, decimal, flat_map, pos, get_or, All};
ghost use Rattle.pl_spec.specs.Decimals.{cell_text};
ghost use Rattle.pl_spec.specs.Limits.{most_window};
ghost use Rattle.pl_spec.specs.Parts.{sid_at};
ghost use Rattle.pl_spec.specs.Rounding.{IsCell};
ghost use Rattle.pl_outside.specs.Taken.{Writes};
ghost use Rattle.pl_windows.specs.Ranges.{IsAsked, IsSession, asked_world, front_text};
ghost use Rattle.pl_windows.specs.Windows.{further_text, row_line};

use crate::asked::Asked;
use itoa::Buffer;
use pl_fixed::write_decimal;
use pl_outside::{Failed, Sink, write_bytes};
use pl_spec::Format;
use pl_table::{Line, Writing, put_cell, put_date, put_sid};

/// An asset by its column, and a session; both are counted from 0.
#[derive(Clone, Copy)]
pub(crate) struct Place {
    pub(crate) col: usize,
    pub(crate) session: usize,
}

/// Writes the date, the sid, how many cells there are, and the cells.
pub(crate) fn write_line<O: Sink>(
    asked: &Asked<'_>,
    place: Place,
    cells: &[i64],
    line: &mut Line,
    out: &mut O,
) -> Result<(), Failed>
    requires asked { IsAsked asked.now }
    requires session { IsSession asked.now place.session }
    requires col { place.col < length asked.now.world.assets.now }
    requires some { 1 ≤ length cells.now }
    requires cells { All IsCell cells.now }
    ensures { Writes O.taken O.faults O.sound O.room out.old out.new
        (row_line (asked_world asked.now) (record {
          session = place.session;
          sid = sid_at asked.now.world.assets.now place.col;
          cells = cells.now;
        })) result }
{
    put_front(asked, place, cells, line);
    write_further(&cells[1..], line, out)
}

// Begins the line anew, and puts all up to the first cell.
fn put_front(asked: &Asked<'_>, place: Place, cells: &[i64], line: &mut Line)
    requires asked { IsAsked asked.now }
    requires session { IsSession asked.now place.session }
    requires col { place.col < length asked.now.world.assets.now }
    requires some { 1 ≤ length cells.now }
    requires cells { All IsCell cells.now }
    ensures text { line.new ≡ front_text (asked_world asked.now) place.session
        (sid_at asked.now.world.assets.now place.col) (length cells.now) (get_or cells.now 0 (pos 0)) }
    ensures short { length line.new ≤ 200 }
{
    let world = &asked.world;
    line.clear();
    put_date(line, Format::Csv, world.sessions.day(place.session));
    put_sid(line, Format::Csv, world.assets.sid(place.col));
    put_count(cells.len(), line);
    put_cell(line, Format::Csv, Writing::Cell, cells[0], world.labels);
}

fn put_count(count: usize, line: &mut Line)
    requires { length line.old ≤ 30 }
    ensures text { line.new ≡ line.old ++ 44 ∷ decimal count }
    ensures within { length line.new ≤ length line.old + 21 }
{
    let mut buffer = Buffer::new();
    line.put(b",");
    line.put(buffer.format(count).as_bytes());
}

// Writes what was put, the further cells, each behind a semicolon and in a piece of its own, and the line's
// end.
fn write_further<O: Sink>(cells: &[i64], line: &mut Line, out: &mut O) -> Result<(), Failed>
    requires cells { All IsCell cells.now }
    requires short { length line.old ≤ 200 }
    ensures { Writes O.taken O.faults O.sound O.room out.old out.new
        (line.old ++ further_text cells.now ++ 10 ∷ []) result }
{
    match cells {
        [] => {
            line.put(b"\n");
            write_bytes(out, line.as_slice())
        }
        [cell, rest @ ..] => {
            write_bytes(out, line.as_slice())?;
            put_further(*cell, line);
            write_further(rest, line, out)
        }
    }
}

// Begins the line anew with a further cell.
fn put_further(cell: i64, line: &mut Line)
    requires { IsCell cell }
    ensures text { line.new ≡ 59 ∷ cell_text cell }
    ensures short { length line.new ≤ 33 }
{
    let mut text = [0u8; 32];
    let len = write_decimal(cell, &mut text);
    line.clear();
    line.put(b";");
    line.put(&text[..len]);
}
