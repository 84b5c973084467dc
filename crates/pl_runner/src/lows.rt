//! The first session of a chunk's work.
ghost use Rattle.std.specs.Prelude.{◌≡◌, ◌≤◌};
ghost use Rattle.pl_table.specs.Asked.{IsAsked, asked_pipeline};
ghost use Rattle.pl_runner.specs.Chunks.{IsLeast};

use pl_table::Asked;
use pl_terms::TermId;

/// The first session on which any used term is computed for a chunk that begins with session `from`.
pub(crate) fn least_low(asked: &Asked<'_>, from: usize) -> usize
    requires asked { IsAsked asked.now }
    requires from { asked.now.plan.now.from ≤ from }
    requires to { from ≤ asked.now.plan.now.to }
    ensures least { IsLeast (asked_pipeline asked.now) asked.now.plan.now from result }
    ensures within { result ≤ from }
{
    let mut low = from;
    for t in 0..asked.checked.graph().len() {
        let term = TermId(t as u8);
        if asked.plan.is_used(term) {
            low = low.min(asked.plan.low_at(term, from));
        }
    }
    low
}
