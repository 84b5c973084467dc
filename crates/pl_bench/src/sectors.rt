//! The sectors.

ghost use Rattle.std.specs.Prelude.{◌≡◌, IfOk, OnOk};
ghost use Rattle.pl_assets.specs.Labels.{table_of};
ghost use Rattle.pl_bench.specs.Draws.{behind};
ghost use Rattle.pl_bench.specs.StatedWorld.{first_day, sectors_from, stated_assets};

use crate::draws::Draws;
use crate::world::ASSETS;
use pl_assets::{Assets, Labels};
use pl_fixed::Memory;
use std::alloc::Global;

/// A sector for each asset by ascending sid, from the day `start` on: `S` and a digit.
pub(crate) fn draw_sectors(
    alloc: Global,
    assets: &Assets,
    start: i32,
    draws: &mut Draws,
) -> Result<Labels, Memory>
    requires assets { assets.now ≡ stated_assets }
    requires start { start ≡ first_day }
    ensures labels { IfOk result (λ l. l ≡ table_of (sectors_from draws.old)) }
    ensures draws { OnOk result (draws.new ≡ behind draws.old 400) }
{
    let mut labels = Labels::none(alloc);
    for col in 0..ASSETS {
        let digit = b'0' + draws.draw(10) as u8;
        labels.add(assets, b"sector", col + 1, start, &[b'S', digit])?;
    }
    Ok(labels)
}
