//! One adjustment, and what it does to a cell.

ghost use Rattle.std.specs.Prelude.{◌≡◌, Some, None, IfSome, IfNone};
ghost use Rattle.pl_spec.specs.Window.{effect, factor};
ghost use Rattle.pl_adjust.specs.Events.{IsPut, PutsCell, effect_of, event_of};

use pl_fixed::{Column, Ratio};
use pl_spec::AdjustmentKind as Kind;

/// What an adjustment changes: it multiplies the cells of earlier bars by a ratio, or overwrites one cell,
/// that of a bar column in the bar of the session on a day, counted from 1970-01-01. The value is a cell in
/// millionths, or `MISSING`.
#[derive(Clone, Copy, Debug, PartialEq, Eq)]
pub enum Change {
    Scale(Ratio),
    Overwrite {
        bar_day: i32,
        column: Column,
        value: i64,
    },
}

/// An adjustment of an asset: from its day on, counted from 1970-01-01, the bars of earlier days
/// are seen with its change.
#[derive(Clone, Copy, Debug, PartialEq, Eq)]
pub struct Adjust {
    pub day: i32,
    pub kind: Kind,
    pub change: Change,
}

/// What an adjustment does to a cell: it multiplies it by a ratio, or puts another in its place, in
/// millionths or `MISSING`.
#[derive(Clone, Copy, Debug, PartialEq, Eq)]
pub enum Effect {
    Scale(Ratio),
    Put(i64),
}

/// What a ratio multiplies the cells of a bar column by: prices by itself, and the volume by the inverse of a
/// split's. `None` for a merger or a dividend on volume, which they leave as it is. That prices and
/// splits are treated so is Zipline's rule; that mergers and dividends leave volume alone is our own.
pub fn ratio_for(kind: Kind, ratio: Ratio, column: Column) -> Option<Ratio>
    ensures { result ≡ factor column kind ratio }
{
    match (column, kind) {
        (Column::Volume, Kind::Merger | Kind::Dividend) => None,
        (Column::Volume, _) => Some(ratio.inverse()),
        _ => Some(ratio),
    }
}

/// What an adjustment does to the cell of a bar column in the bar of a day, counted from 1970-01-01: a ratio
/// multiplies it by its factor, and a revision overwrites its own cell. `None` for a merger or a dividend on
/// volume, and for a revision of another bar or column.
pub fn effect_for(adjust: &Adjust, bar_day: i32, column: Column) -> Option<Effect>
    ensures some { IfSome result (λ e.
        effect column bar_day (event_of adjust.now) ≡ Some (effect_of e)) }
    ensures put { PutsCell (event_of adjust.now) → IfSome result IsPut }
    ensures none { IfNone result (effect column bar_day (event_of adjust.now) ≡ None) }
{
    match adjust.change {
        Change::Scale(ratio) => match ratio_for(adjust.kind, ratio, column) {
            Some(factor) => Some(Effect::Scale(factor)),
            None => None,
        },
        Change::Overwrite {
            bar_day: revised,
            column: own,
            value,
        } => {
            if revised == bar_day && own == column {
                Some(Effect::Put(value))
            } else {
                None
            }
        }
    }
}
