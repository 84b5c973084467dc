//! Where a sid is among the assets, and when an asset exists.

ghost use Rattle.std.specs.Prelude.{◌≡◌, ◌<◌, length, IfSome};
ghost use Rattle.pl_spec.specs.World.{lives_on};
ghost use Rattle.pl_lifetimes.specs.Assets.{AreAssets, col_in};

use pl_spec::AssetRow;

// The place of the asset with the sid.
pub(crate) fn col_of(rows: &[AssetRow], sid: u32) -> Option<usize>
    requires { AreAssets rows.now }
    ensures within { IfSome result (λ i. i < length rows.now) }
    ensures exact { result ≡ col_in rows.now sid }
{
    let i = rows.partition_point(|row| row.sid < sid);
    if i < rows.len() && rows[i].sid == sid {
        Some(i)
    } else {
        None
    }
}

// The same. The asset at a place and the one after it are looked at before it is searched for.
pub(crate) fn col_near(rows: &[AssetRow], near: u32, sid: u32) -> Option<usize>
    requires { AreAssets rows.now }
    ensures within { IfSome result (λ i. i < length rows.now) }
    ensures exact { result ≡ col_in rows.now sid }
{
    let same = near as usize;
    let next = same + 1;
    if same < rows.len() && rows[same].sid == sid {
        return Some(same);
    }
    if next < rows.len() && rows[next].sid == sid {
        return Some(next);
    }
    col_of(rows, sid)
}

// Whether the asset exists on the day.
pub(crate) fn lives(asset: AssetRow, day: i32) -> bool
    ensures { result ≡ lives_on day asset }
{
    asset.start < day && day <= asset.end
}
