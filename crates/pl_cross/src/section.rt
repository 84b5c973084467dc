//! The cross-sections among the kinds of terms.
ghost use Rattle.std.specs.Prelude.{◌≡◌, true};
ghost use Rattle.pl_pipeline.specs.Kind.Kind.{Cross};
ghost use Rattle.pl_terms.specs.Kinds.{kind_of};
ghost use Rattle.pl_cross.specs.Section.{cross_of, is_section, order_of};

use pl_pipeline::{RankMethod, RankOrder, Summary};
use pl_terms::TermKind;

/// What is computed over a session's assets. The bounds of `PercentileBetween` are hundredths of a percent,
/// those of `Winsorize` millionths.
#[derive(Clone, Copy)]
pub(crate) enum Section {
    Rank {
        method: RankMethod,
        order: RankOrder,
    },
    Demean,
    ZScore,
    Quantiles {
        bins: u32,
    },
    Top {
        n: u32,
    },
    Bottom {
        n: u32,
    },
    PercentileBetween {
        low: u32,
        high: u32,
    },
    PeerCount,
    Winsorize {
        low: u32,
        high: u32,
    },
    Scale,
    Summarize {
        summary: Summary,
    },
}

/// The cross-section that a kind is.
#[tactic(auto, unfolding(pl_terms::specs::Kinds::kind_of))]
pub(crate) fn section_of(kind: &TermKind) -> Section
    requires { is_section (kind_of kind.now) ≡ true }
    ensures { kind_of kind.now ≡ Cross (cross_of result) }
{
    match kind {
        TermKind::Rank { method, order } => Section::Rank {
            method: *method,
            order: *order,
        },
        TermKind::Demean => Section::Demean,
        TermKind::ZScore => Section::ZScore,
        TermKind::Quantiles { bins } => Section::Quantiles { bins: *bins },
        TermKind::Top { n } => Section::Top { n: *n },
        TermKind::Bottom { n } => Section::Bottom { n: *n },
        TermKind::PercentileBetween { low, high } => Section::PercentileBetween {
            low: *low,
            high: *high,
        },
        TermKind::PeerCount => Section::PeerCount,
        TermKind::Winsorize { low, high } => Section::Winsorize {
            low: *low,
            high: *high,
        },
        TermKind::Scale => Section::Scale,
        TermKind::Summarize { summary } => Section::Summarize { summary: *summary },
        _ => unreachable!(),
    }
}

/// Whether the least value comes first, or the greatest.
pub(crate) fn order_of(section: Section) -> RankOrder
    ensures { result ≡ order_of (cross_of section) }
{
    match section {
        Section::Rank { order, .. } => order,
        Section::Top { .. } => RankOrder::Descending,
        _ => RankOrder::Ascending,
    }
}
