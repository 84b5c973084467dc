//! Where the session and the asset of a record are. In a file by asset the next bar is that of the same asset
//! on the next session, and in a file by date that of the next asset on the same session, so these are tried
//! before they are searched for.

ghost use Rattle.std.specs.Prelude.{◌≡◌, ◌<◌, length, IfSome};
ghost use Rattle.pl_lifetimes.specs.Assets.{col_in};
ghost use Rattle.pl_bars.specs.Bars.{session_in};

use crate::fields::Fields;
use pl_calendar::Sessions;
use pl_lifetimes::Assets;
use pl_spec::BarRow;

/// The session of a record's day, if the day has one.
pub(crate) fn session_of(before: &[BarRow], sessions: &Sessions, fields: &Fields) -> Option<usize>
    ensures within { IfSome result (λ i. i < length sessions.now) }
    ensures exact { result ≡ session_in sessions.now fields.now.day }
{
    let day = fields.day;
    if let [.., last] = before {
        let same = last.session as usize;
        let next = same + 1;
        if next < sessions.len() && sessions.day(next) == day {
            return Some(next);
        }
        if same < sessions.len() && sessions.day(same) == day {
            return Some(same);
        }
    }
    sessions.index_of(day)
}

/// The column of a sid, if an asset has it.
pub(crate) fn col_of(before: &[BarRow], assets: &Assets, sid: u32) -> Option<usize>
    ensures within { IfSome result (λ i. i < length assets.now) }
    ensures exact { result ≡ col_in assets.now sid }
{
    match before {
        [.., last] => assets.col_near(last.col, sid),
        [] => assets.col_of(sid),
    }
}
