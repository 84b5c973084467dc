//! Ratios of whole numbers, as adjustments have them.

ghost use Rattle.std.specs.Prelude.{◌≡◌, ◌↔◌, ◌+◌, pos, IsSome, IfSome, ◌≤ℤ◌};
ghost use Rattle.pl_spec.specs.Rounding.{IsCell};

use crate::cell::{MISSING, to_cell};
use crate::rounding::div_round;
use crate::steps::Steps;
use std::marker::Model;
use std::sync::ledger::Ledger;

/// A ratio of two whole numbers, each from 1 to 10^9. It is not reduced.
#[derive(Clone, Copy, Debug, PartialEq, Eq)]
pub struct Ratio {
    num: u32,
    den: u32,
}

impl Model for Ratio {
    ghost use Rattle.pl_spec.specs.Rounding.{Fraction};
    ghost use Rattle.pl_fixed.specs.Ratios.{IsRatio};

    ghost Value = { Fraction };

    ghost view = { λ r. record { num = r.num; den = r.den } };

    ghost inverse = { λ f. record { num = f.num; den = f.den } };

    ghost invariant = { λ r. IsRatio (record { num = r.num; den = r.den }) };
}

// The greatest numerator and denominator.
const MOST: i64 = 1_000_000_000;

impl Ratio {
    ghost use Rattle.pl_spec.specs.Rounding.{inverse, scaled};
    ghost use Rattle.pl_fixed.specs.Ratios.{IsRatio};

    /// The ratio `num / den`; `None` where one of them is outside 1 to 10^9.
    pub fn new(num: i64, den: i64) -> Option<Ratio>
        ensures some { IsSome result ↔ ((pos 1 ≤ℤ num) × (num ≤ℤ pos 1_000_000_000)
            × (pos 1 ≤ℤ den) × (den ≤ℤ pos 1_000_000_000)) }
        ensures value { IfSome result (λ r. (pos r.num ≡ num) × (pos r.den ≡ den)) }
    {
        if 1 <= num && num <= MOST && 1 <= den && den <= MOST {
            Some(Ratio {
                num: num as u32,
                den: den as u32,
            })
        } else {
            None
        }
    }

    /// The numerator as it was given, from 1 to 10^9.
    pub fn num(&self) -> i64
        ensures value { result ≡ pos self.now.num }
        ensures range { IsRatio self.now }
    {
        self.num as i64
    }

    /// The denominator as it was given, from 1 to 10^9.
    pub fn den(&self) -> i64
        ensures value { result ≡ pos self.now.den }
        ensures range { IsRatio self.now }
    {
        self.den as i64
    }

    /// The ratio `den / num`.
    pub fn inverse(&self) -> Ratio
        ensures { result ≡ inverse self.now }
    {
        Ratio {
            num: self.den,
            den: self.num,
        }
    }

    /// The cell times the ratio, in millionths, rounded once, ties away from zero: one step. `MISSING` stays
    /// `MISSING`, in one step too; a product outside `-LIM` to `LIM` is `MISSING`.
    #[tactic(auto, unfolding(pl_spec::specs::Rounding::scaled))]
    pub fn apply<L: Ledger>(&self, cell: i64, steps: &mut Steps<L>) -> i64
        requires { IsCell cell }
        ensures value { result ≡ scaled self.now cell }
        ensures cell { IsCell result }
        ensures cost { steps.new ≡ steps.old + 1 }
    {
        steps.tick();
        if cell == MISSING {
            MISSING
        } else {
            to_cell(div_round(cell as i128 * self.num as i128, self.den as i128))
        }
    }
}
