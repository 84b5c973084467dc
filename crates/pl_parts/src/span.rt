//! The span of a cut, and the assets that it keeps.

ghost use Rattle.std.specs.Prelude.{◌≡◌, ◌<◌, length};
ghost use Rattle.pl_spec.specs.Parts.{sid_at};
ghost use Rattle.pl_parts.specs.Parts.{world_of, IsMade};
ghost use Rattle.pl_cut.specs.Cuts.{is_of, lives_in};
ghost use Rattle.pl_parts.specs.Spans.{span_of};

use crate::parts::Parts;
use pl_assets::AssetRow;

/// Sessions that follow each other: the first whose bars or terms are read, and the last whose rows are asked
/// for, counted from 0; and their days, counted from 1970-01-01.
#[derive(Clone, Copy, Debug, PartialEq, Eq)]
pub struct Span {
    pub first: usize,
    pub last: usize,
    pub first_day: i32,
    pub last_day: i32,
}

pub(crate) fn lives_in(span: Span, asset: AssetRow) -> bool
    ensures { result ≡ lives_in (span_of span) asset }
{
    asset.start < span.last_day && span.first_day <= asset.end
}

pub(crate) fn sid_of(world: &Parts<'_>, col: usize) -> u32
    requires { col < length world.now.assets.now }
    ensures { result ≡ sid_at world.now.assets.now col }
{
    world.assets.row(col).sid
}

// Whether the asset in a column lives in the span.
pub(crate) fn is_of(world: &Parts<'_>, span: Span, col: usize) -> bool
    requires made { IsMade world.now }
    requires col { col < length world.now.assets.now }
    ensures { result ≡ is_of (world_of world.now) (span_of span) (sid_at world.now.assets.now col) }
{
    lives_in(span, world.assets.row(col))
}
