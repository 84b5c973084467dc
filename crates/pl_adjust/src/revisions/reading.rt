//! From the bytes of a revisions file to its rows.

ghost use Rattle.std.specs.Prelude.{◌≡◌, ◌+◌, ◌<◌, ◌≤◌, [], length, IfOk, OnOk};
ghost use Rattle.pl_spec.specs.Limits.{most_revisions};
ghost use Rattle.pl_records.specs.Reading.{Answers, at_line, rows_of};
ghost use Rattle.pl_records.specs.Records.{csv_records};
ghost use Rattle.pl_adjust.specs.Revisions.{AreRevisions, revisions_of, revision_or_rule};
ghost use Rattle.pl_adjust.specs.RevisionFaults.{fault_of};

use crate::revisions::error::RevisionsError;
use crate::revisions::fields::{is_soon, lacks_asset, lacks_session, revision_of};
use crate::revisions::rows::Rows;
use crate::revisions::{MOST_REVISIONS, Revision};
use pl_bars::is_below_0;
use pl_calendar::Sessions;
use pl_lifetimes::Assets;
use pl_records::Records;
use std::alloc::Global;

/// The revisions of a file in its order: the header `sid,session,column,value,known`, and in each further
/// record the sid of an asset, the date of a session, the name of a bar column, a decimal of at least 0 or an
/// empty field, and a later date. The error is the first fault of the file, or want of memory.
pub(crate) fn read_revisions(
    alloc: Global,
    bytes: &[u8],
    sessions: &Sessions,
    assets: &Assets,
) -> Result<Vec<Revision>, RevisionsError>
    // The revisions of the records, or the fault of the first faulty one. Only want of memory may
    // come beside.
    ensures exact { Answers (λ v. v.items) fault_of result
        (revisions_of sessions.now assets.now (csv_records bytes.now)) }
    ensures revisions { IfOk result (λ v. AreRevisions sessions.now assets.now v.items) }
{
    let _assets = assets.len();
    let _sessions = sessions.len();
    let rows = read_rows(alloc, bytes, sessions, assets)?;
    Ok(rows.into_list())
}

#[tactic(auto, unfolding(crate::specs::Revisions::revisions_of))]
fn read_rows(
    alloc: Global,
    bytes: &[u8],
    sessions: &Sessions,
    assets: &Assets,
) -> Result<Rows, RevisionsError>
    ensures { Answers (λ r. r) fault_of result
        (revisions_of sessions.now assets.now (csv_records bytes.now)) }
{
    let mut records = Records::new(alloc, bytes);
    if !records.read_header(&[b"sid", b"session", b"column", b"value", b"known"])? {
        return Err(RevisionsError::BadHeader);
    }
    rows_behind(alloc, &mut records, sessions, assets)
}

// The revisions of the records after the header.
fn rows_behind(
    alloc: Global,
    records: &mut Records,
    sessions: &Sessions,
    assets: &Assets,
) -> Result<Rows, RevisionsError>
    ensures { Answers (λ r. r) fault_of result
        (rows_of 2 (revision_or_rule sessions.now assets.now) records.old.left) }
{
    let mut rows = Rows::new(alloc);
    'rows: while records.next()? {
        let revision = next_revision(&rows, records, sessions, assets)?;
        rows = rows.and(revision)?;
    }
    Ok(rows)
}

// The revision of the record that was read last, after those before it.
#[tactic(auto, unfolding(crate::specs::Revisions::revision_or_rule))]
fn next_revision(
    before: &Rows,
    row: &Records,
    sessions: &Sessions,
    assets: &Assets,
) -> Result<Revision, RevisionsError>
    requires { length before.now ≤ most_revisions }
    ensures room { OnOk result (length before.now < most_revisions) }
    ensures exact { Answers (λ r. r) fault_of result
        (at_line (2 + length before.now)
        (revision_or_rule sessions.now assets.now before.now row.now.fields)) }
{
    let line = before.len() as u32 + 2;
    if before.len() >= MOST_REVISIONS {
        return Err(RevisionsError::TooMany { line });
    }
    let Some(revision) = revision_of(row) else {
        return Err(RevisionsError::BadField { line });
    };
    if lacks_session(sessions, &revision) {
        return Err(RevisionsError::NotSession { line });
    }
    if lacks_asset(assets, &revision) {
        return Err(RevisionsError::UnknownSid { line });
    }
    if is_below_0(revision.value) {
        return Err(RevisionsError::Negative { line });
    }
    if is_soon(&revision) {
        return Err(RevisionsError::TooSoon { line });
    }
    if before.has(&revision) {
        return Err(RevisionsError::Duplicate { line });
    }
    Ok(revision)
}
