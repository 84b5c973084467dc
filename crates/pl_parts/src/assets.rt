//! The assets.

ghost use Rattle.std.specs.Prelude.{◌≡◌, ◌++◌, ◌<◌, length, OnOk, IfOk};
ghost use Rattle.pl_parts.specs.Parts.{world_of};
ghost use Rattle.pl_cut.specs.Cuts.{cut, lives_in};
ghost use Rattle.pl_parts.specs.Spans.{span_of};
ghost use Rattle.pl_parts.specs.Kept.{if_kept, text_at};
ghost use Rattle.pl_parts.specs.Texts.{asset_line, assets_text};

use crate::parts::Parts;
use crate::put::{put, put_end, put_further_day, put_number};
use crate::span::{Span, lives_in};
use pl_assets::{AssetRow, Assets};
use pl_fixed::Memory;
use std::alloc::{AllocError, Global};

/// The assets of a cut, with the header `sid,start,end`. The only error is want of memory.
pub fn assets_text(alloc: Global, world: &Parts<'_>, span: Span) -> Result<Vec<u8>, Memory>
    ensures { IfOk result (λ v. v.items ≡ assets_text (cut (world_of world.now) (span_of span))) }
{
    let mut out = Vec::new(alloc);
    put(&mut out, b"sid,start,end\n")?;
    for col in 0..world.assets.len() {
        put_kept_asset(&mut out, world.assets, span, col)?;
    }
    Ok(out)
}

fn put_kept_asset(
    out: &mut Vec<u8>,
    assets: &Assets,
    span: Span,
    col: usize,
) -> Result<(), AllocError>
    requires { col < length assets.now }
    ensures { OnOk result (out.new.items ≡ out.old.items
        ++ text_at (if_kept (lives_in (span_of span)) asset_line) assets.now col) }
{
    let asset = assets.row(col);
    if !lives_in(span, asset) {
        return Ok(());
    }
    put_asset(out, asset)
}

fn put_asset(out: &mut Vec<u8>, asset: AssetRow) -> Result<(), AllocError>
    ensures { OnOk result (out.new.items ≡ out.old.items ++ asset_line asset) }
{
    put_number(out, u64::from(asset.sid))?;
    put_further_day(out, asset.start)?;
    put_further_day(out, asset.end)?;
    put_end(out)
}
