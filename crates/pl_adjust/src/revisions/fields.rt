//! The fields of a record of a revision.

ghost use Rattle.std.specs.Prelude.{◌≡◌};
ghost use Rattle.pl_records.specs.RuleTable.{lacks};
ghost use Rattle.pl_lifetimes.specs.Assets.{col_in};
ghost use Rattle.pl_bars.specs.Bars.{session_in};
ghost use Rattle.pl_adjust.specs.Revisions.{is_soon, revision_in};

use crate::revisions::Revision;
use pl_bars::{read_cell, read_column};
use pl_calendar::Sessions;
use pl_fixed::{read_day, read_sid};
use pl_lifetimes::Assets;
use pl_records::Records;

// The revision of the record that was read last, where its fields are those of one.
#[tactic(auto, unfolding(crate::specs::Revisions::revision_in))]
pub(crate) fn revision_of(row: &Records) -> Option<Revision>
    ensures { result ≡ revision_in row.now.fields }
{
    if row.field_count() != 5 {
        return None;
    }
    let sid = read_sid(row.field(0))?;
    let bar_day = read_day(row.field(1))?;
    let column = read_column(row.field(2))?;
    let value = read_cell(row.field(3))?;
    let known = read_day(row.field(4))?;
    Some(Revision {
        sid,
        bar_day,
        column,
        value,
        known,
    })
}

// Whether no session has the day of the bar.
pub(crate) fn lacks_session(sessions: &Sessions, row: &Revision) -> bool
    ensures { result ≡ lacks (session_in sessions.now row.now.bar_day) }
{
    sessions.index_of(row.bar_day).is_none()
}

// Whether no asset has the sid.
pub(crate) fn lacks_asset(assets: &Assets, row: &Revision) -> bool
    ensures { result ≡ lacks (col_in assets.now row.now.sid) }
{
    assets.col_of(row.sid).is_none()
}

// Whether the revision is known on the day of its bar already.
pub(crate) fn is_soon(row: &Revision) -> bool
    ensures { result ≡ is_soon row.now }
{
    row.known <= row.bar_day
}
