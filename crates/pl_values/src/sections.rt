//! Cross-sections.
ghost use Rattle.std.specs.Prelude.{◌≡◌, ◌≤◌, ◌<◌, ℕ, All, length, not, true};
ghost use Rattle.pl_spec.specs.Limits.{most_assets};
ghost use Rattle.pl_spec.specs.Rounding.{IsCell};
ghost use Rattle.pl_pipeline.specs.Cross.{array_at};
ghost use Rattle.pl_pipeline.specs.Kind.{Kind, CrossKind};
ghost use Rattle.pl_terms.specs.Kinds.{kind_of};
ghost use Rattle.pl_cross.specs.Section.{HasParameters, is_choice, is_measure, is_section};
ghost use Rattle.pl_cross.specs.Listing.{Fits, labels_in};
ghost use Rattle.pl_cross.specs.Arrays.{section_at};

use pl_cross::{Cross, cross_into, select_into};
use pl_terms::TermKind;

/// The cross-section of one session over the rows of its input, of who is kept (1 or 0), and of the group,
/// each by ascending column: `cross_into` or `select_into`, whichever the kind asks for. It takes no memory.
pub fn section_values(
    kind: &TermKind,
    cross: &mut Cross,
    values: &[i64],
    keep: &[i64],
    groups: Option<&[i64]>,
    out: &mut [i64],
)
    requires kind { is_section (kind_of kind.now) ≡ true }
    requires parameters { HasParameters (kind_of kind.now) }
    requires room { length values.now ≤ cross.old }
    requires few { length values.now ≤ most_assets }
    requires cells { All IsCell values.now }
    requires keep { length keep.now ≡ length values.now }
    requires groups { Fits (length values.now) (labels_in groups) }
    requires out { length out.old ≡ length values.now }
    ensures room { cross.new ≡ cross.old }
    ensures length { length out.new ≡ length out.old }
    ensures each { (k : CrossKind) → kind_of kind.now ≡ Kind.Cross k → (i : ℕ)
        → i < length values.now → array_at out.new i
        ≡ section_at k values.now keep.now (labels_in groups.entry) i }
    ensures cells { All IsCell out.new }
{
    if is_choice(kind) {
        select_into(kind, cross, values, keep, groups, out);
    } else {
        cross_into(kind, cross, values, keep, groups, out);
    }
}

// Is the kind a filter of ranks?
#[tactic(auto, unfolding(pl_terms::specs::Kinds::kind_of))]
fn is_choice(kind: &TermKind) -> bool
    requires { is_section (kind_of kind.now) ≡ true }
    ensures choice { result ≡ is_choice (kind_of kind.now) }
    ensures measure { not result ≡ is_measure (kind_of kind.now) }
{
    matches!(
        kind,
        TermKind::Top { .. } | TermKind::Bottom { .. } | TermKind::PercentileBetween { .. }
    )
}
