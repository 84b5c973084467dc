//! Plans, and what they say of each term.
ghost use Rattle.std.specs.Prelude.{◌≡◌, ◌+◌, ◌-◌, ◌<◌, ◌≤◌, ◌≤ℤ◌, pos, true, option_map};
ghost use Rattle.pl_spec.specs.Limits.{most_extra_rows, most_terms};
ghost use Rattle.pl_terms.specs.Nodes.{number_of};
ghost use Rattle.pl_planner.specs.Cones.{pairs_of};
ghost use Rattle.pl_planner.specs.Plans as spec;

use crate::cones::{Cone, ConeTerm, any_terms};
use crate::slots::TermSlots;
use crate::uses::{Use, use_of};
use pl_terms::TermId;
use std::marker::Model;

/// Why there is no plan.
#[derive(Clone, Copy, Debug, PartialEq, Eq)]
pub enum PlanError {
    /// The least session that a column or the screen reaches for the first one of the range; it is below 0,
    /// where the first session there is has the number 0.
    TooEarly { reach: i64 },
    /// A term is computed `rows` sessions before a session of the range, the most of all, which is over
    /// 4,096.
    TooDeep { rows: u64 },
    /// Memory ran out.
    Memory,
}

/// How a pipeline is run over the sessions from one to another: how far back each used term is computed, in
/// which slot it is held, and what is computed anew for its windows. Sessions are counted from 0.
#[derive(Drop)]
pub struct Plan {
    pub(crate) from: usize,
    pub(crate) to: usize,
    pub(crate) reach: i64,
    pub(crate) bound: usize,
    pub(crate) uses: Vec<Use>,
    pub(crate) extras: Vec<usize>,
    pub(crate) slots: Vec<TermSlots>,
    pub(crate) cones: Vec<Cone>,
}

impl Model for Plan {
    ghost use Rattle.pl_planner.specs.Plans.{Planned};

    ghost Value = { Planned };

    ghost use Rattle.pl_planner.specs.Inside.{planned_of, KeepsLimitsInside};

    ghost view = { planned_of };

    ghost invariant = { KeepsLimitsInside };
}

impl Plan {
    /// The first session of the range, counted from 0.
    pub fn from(&self) -> usize
        ensures value { result ≡ self.now.from }
        ensures order { result ≤ self.now.to }
    {
        self.from
    }

    /// The last session of the range, included, counted from 0.
    pub fn to(&self) -> usize
        ensures value { result ≡ self.now.to }
        ensures order { self.now.from ≤ result }
    {
        self.to
    }

    /// Is the term an output, or mentioned by a used term?
    #[tactic(auto, unfolding(crate::specs::Plans::is_used))]
    pub fn is_used(&self, t: TermId) -> bool
        ensures { result ≡ spec.is_used self.now t.0 }
    {
        use_of(&self.uses, t.0 as usize).used
    }

    /// How many sessions before the range a used term is computed: at most 4,096.
    pub fn extra(&self, t: TermId) -> usize
        requires { spec.is_used self.now t.0 ≡ true }
        ensures value { result ≡ spec.extra self.now t.0 }
        ensures few { result ≤ most_extra_rows }
    {
        self.from - self.low(t)
    }

    /// The session from which on a used term is computed, for the whole range.
    pub fn low(&self, t: TermId) -> usize
        requires { spec.is_used self.now t.0 ≡ true }
        ensures value { result ≡ spec.low self.now t.0 }
        ensures within { result ≤ self.now.from }
        ensures few { self.now.from - result ≤ most_extra_rows }
    {
        self.low_at(t, self.from)
    }

    /// The session from which on a used term is computed for a session of the range and later ones.
    #[tactic(auto, unfolding(crate::specs::Plans::is_used, crate::specs::Plans::low_at))]
    pub fn low_at(&self, t: TermId, session: usize) -> usize
        requires used { spec.is_used self.now t.0 ≡ true }
        requires from { self.now.from ≤ session }
        requires to { session ≤ self.now.to }
        ensures value { result ≡ spec.low_at self.now t.0 session }
        ensures within { result ≤ session }
        ensures few { session - result ≤ most_extra_rows }
    {
        session - self.extras[(session - self.from) * self.uses.len() + t.0 as usize]
    }

    /// The first session that a column or the screen needs for the first one of the range, of its bars or of
    /// the values of its terms; at least 0.
    pub fn reach(&self) -> i64
        ensures value { result ≡ self.now.reach }
        ensures early { pos 0 ≤ℤ result }
    {
        self.reach
    }

    /// The greatest number of terms and bar columns that are live at once, and so of arrays: at most 261.
    pub fn bound(&self) -> usize
        ensures value { result ≡ self.now.bound }
        ensures few { result ≤ most_terms + 5 }
    {
        self.bound
    }

    /// The last used term that mentions a used term; `None` for an output, which is kept to the end.
    #[tactic(auto, unfolding(crate::specs::Plans::last_user))]
    pub fn last_user(&self, t: TermId) -> Option<TermId>
        requires { spec.is_used self.now t.0 ≡ true }
        ensures { option_map number_of result ≡ spec.last_user self.now t.0 }
    {
        let last = use_of(&self.uses, t.0 as usize).last;
        if last < self.uses.len() {
            Some(TermId(last as u8))
        } else {
            None
        }
    }

    /// The slot of a used term: the lowest that no term with a lower number has which is live with it.
    #[tactic(auto, unfolding(crate::specs::Plans::is_used, crate::specs::Plans::slot_of))]
    pub fn slot(&self, t: TermId) -> usize
        requires { spec.is_used self.now t.0 ≡ true }
        ensures value { result ≡ spec.slot_of self.now t.0 }
        ensures within { result < self.now.bound }
    {
        self.slots[t.0 as usize].own
    }

    /// The slot of the i-th distinct bar column that a used term or its cone reads, while the term is
    /// computed: of those that no live term has the i-th.
    #[tactic(auto, unfolding(crate::specs::Plans::is_used, crate::specs::Plans::column_slot))]
    pub fn column_slot(&self, t: TermId, i: usize) -> usize
        requires used { spec.is_used self.now t.0 ≡ true }
        requires within { i < 5 }
        ensures { result ≡ spec.column_slot self.now t.0 i }
    {
        self.slots[t.0 as usize].columns[i]
    }

    /// Is a window over terms that move with the bars, so that their values are computed anew?
    pub fn has_cones(&self) -> bool
        ensures { result ≡ spec.has_cones self.now }
    {
        any_terms(&self.cones)
    }

    /// The cone of a used term: the terms that its windows are over and that move with the bars, ascending,
    /// each with the number of sessions before the term's own on which it is computed anew. Most terms have
    /// none.
    #[tactic(auto, unfolding(crate::specs::Plans::is_used, crate::specs::Plans::cone))]
    pub fn cone(&self, t: TermId) -> &[ConeTerm]
        requires { spec.is_used self.now t.0 ≡ true }
        ensures { pairs_of result.now ≡ spec.cone self.now t.0 }
    {
        &self.cones[t.0 as usize].terms
    }
}
