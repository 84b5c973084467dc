//! Membership in a list of sids.
ghost use Rattle.std.specs.Prelude.{◌≡◌, ◌==◌, true};
ghost use Rattle.std.specs.List.{list_any};
ghost use Rattle.pl_terms.specs.Kinds.{kind_of};
ghost use Rattle.pl_values.specs.Families.{is_sids, sid_flag};

use crate::keeping::truth_of;
use pl_terms::TermKind;

/// 1 where the sid is one of the kind's list, else 0.
#[tactic(auto, unfolding(pl_terms::specs::Kinds::kind_of))]
pub fn sids_value(kind: &TermKind, sid: u32) -> i64
    requires { is_sids (kind_of kind.now) ≡ true }
    ensures { result ≡ sid_flag (kind_of kind.now) sid }
{
    match kind {
        TermKind::StaticSids { sids } => truth_of(is_among(sids.as_slice(), sid)),
        _ => unreachable!(),
    }
}

fn is_among(sids: &[u32], sid: u32) -> bool
    ensures { result ≡ list_any (λ b. b == sid) sids.now }
{
    sids.iter().any(|other| *other == sid)
}
