//! A session that was fed last.

use pl_daily::Daily;
use pl_table::Asked;

/// A session of what a table is asked of, which was fed last, and has values.
#[derive(Clone, Copy)]
pub(crate) struct FedSession<'m> {
    pub(crate) asked: Asked<'m>,
    pub(crate) daily: &'m Daily<'m>,
    pub(crate) session: usize,
}
