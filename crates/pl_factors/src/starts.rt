//! What is kept of whole windows.

ghost use Rattle.std.specs.Prelude.{◌≡◌, ◌≤◌, length};
ghost use Rattle.std.specs.List.{All};
ghost use Rattle.pl_spec.specs.Limits.{most_window};
ghost use Rattle.pl_spec.specs.Rounding.{IsCell};
ghost use Rattle.pl_factors.specs.Kept.{sums, spreads, weighted, placed, swings};

use crate::averages::{total_placed, total_products};
use crate::changes::{total_gains, total_losses};
use crate::running::Running;
use pl_lanes::sum_present;

pub(crate) fn sums_of(a: &[i64]) -> Running
    requires cells { All IsCell a.now }
    requires few { length a.now ≤ most_window }
    ensures { result ≡ sums a.now }
{
    let (main, number) = sum_present(a);
    Running {
        main,
        beside: 0,
        number,
    }
}

pub(crate) fn spreads_of(a: &[i64]) -> Running
    requires cells { All IsCell a.now }
    requires few { length a.now ≤ most_window }
    ensures { result ≡ spreads a.now }
{
    let (main, number) = sum_present(a);
    Running {
        main,
        beside: total_products(a, a),
        number,
    }
}

pub(crate) fn weighted_of(a: &[i64], w: &[i64]) -> Running
    requires cells { All IsCell a.now }
    requires weights { All IsCell w.now }
    requires few { length a.now ≤ most_window }
    requires paired { length w.now ≡ length a.now }
    ensures { result ≡ weighted a.now w.now }
{
    let (main, _) = sum_present(w);
    Running {
        main,
        beside: total_products(a, w),
        number: 0,
    }
}

pub(crate) fn placed_of(a: &[i64]) -> Running
    requires cells { All IsCell a.now }
    requires few { length a.now ≤ most_window }
    ensures { result ≡ placed a.now }
{
    let (main, _) = sum_present(a);
    Running {
        main,
        beside: total_placed(a),
        number: 0,
    }
}

pub(crate) fn swings_of(a: &[i64]) -> Running
    requires cells { All IsCell a.now }
    requires few { length a.now ≤ most_window }
    ensures { result ≡ swings a.now }
{
    Running {
        main: total_gains(a),
        beside: total_losses(a),
        number: 0,
    }
}
