//! The sessions, and the assets that exist on all of them but the first.

ghost use Rattle.std.specs.Prelude.{◌≡◌, IfOk};
ghost use Rattle.pl_bench.specs.StatedWorld.{is_weekday, stated_days, stated_assets};

use crate::world::ASSETS;
use pl_assets::{AssetRow, Assets};
use pl_calendar::Sessions;
use std::alloc::{AllocError, Global};

// 2020-01-01, a Wednesday.
const FIRST_DAY: u32 = 18_262;

// 120 weeks, in which there are 600 weekdays.
const DAYS: u32 = 840;

// Monday to Friday. Day 0 was a Thursday.
fn is_weekday(day: u32) -> bool
    ensures { result ≡ is_weekday day }
{
    (u64::from(day) + 3) % 7 < 5
}

/// The first 600 weekdays from 2020-01-01.
pub(crate) fn make_sessions(alloc: Global) -> Result<Sessions, AllocError>
    ensures { IfOk result (λ s. s ≡ stated_days) }
{
    let days = weekdays(alloc)?;
    Ok(Sessions::from_days(days))
}

fn weekdays(alloc: Global) -> Result<Vec<i32>, AllocError>
    ensures { IfOk result (λ days. days.items ≡ stated_days) }
{
    let mut days = Vec::new(alloc);
    for past in 0..DAYS {
        let day = FIRST_DAY + past;
        if is_weekday(day) {
            days.push(day as i32)?;
        }
    }
    Ok(days)
}

/// The assets of the sids 1 to 400, from the first to the last session.
pub(crate) fn make_assets(alloc: Global, sessions: &Sessions) -> Result<Assets, AllocError>
    requires { sessions.now ≡ stated_days }
    ensures { IfOk result (λ a. a ≡ stated_assets) }
{
    let start = sessions.day(0);
    let end = sessions.day(sessions.len() - 1);
    let mut rows = Vec::new(alloc);
    for col in 0..ASSETS {
        let sid = col + 1;
        rows.push(AssetRow { sid, start, end })?;
    }
    Ok(Assets::from_rows(rows))
}
