//! The sums of pairs of values.

ghost use Rattle.std.specs.Prelude.{◌≡◌, ◌≤◌, ◌*◌, ◌^◌, ◌<◌, ◌+◌, ◌-◌, length, take, drop, false, true, unsigned_abs, pos, ◌*ℤ◌, ◌+ℤ◌, ◌-ℤ◌, []};
ghost use Rattle.std.specs.List.{All};
ghost use Rattle.pl_spec.specs.Limits.{most_window};
ghost use Rattle.pl_spec.specs.Rounding.{IsCell, LIMIT, is_missing};
ghost use Rattle.pl_pipeline.specs.Formula.{pair_sums, trend_sums, spread_x, spread_y, joint_spread};
ghost use Rattle.pl_regression.specs.Sums.{AreSums, AreShort, AreWithin, added, removed, lowered};

use pl_fixed::MISSING;
use pl_wide::Whole;
use std::marker::Model;

/// How many pairs there are, the sums of their values, of the squares and of the products.
#[derive(Drop)]
pub struct PairSums {
    number: usize,
    x: i128,
    y: i128,
    xx: i128,
    yy: i128,
    xy: i128,
}

impl Model for PairSums {
    ghost use Rattle.pl_pipeline.specs.Formula.{PairSums};

    ghost Value = { PairSums };

    ghost view = { λ s. record { number = s.number; x = s.x; y = s.y; xx = s.xx; yy = s.yy; xy = s.xy } };
}

impl PairSums {
    /// The sums of the pairs of cells at one place of two windows, where both are present.
    pub fn of_windows(xs: &[i64], ys: &[i64]) -> PairSums
        requires cells { All IsCell xs.now }
        requires others { All IsCell ys.now }
        requires few { length xs.now ≤ most_window }
        requires paired { length ys.now ≡ length xs.now }
        ensures value { result ≡ pair_sums xs.now ys.now }
        ensures small { AreSums result }
    {
        let mut sums = PairSums::none();
        for at in 0..xs.len() {
            sums.add(xs[at], ys[at]);
        }
        sums
    }

    /// The sums of the windows one cell later. The windows before and after are one list for each side: all
    /// but its last cell, and all but its first.
    pub fn slide(&mut self, xs: &[i64], ys: &[i64])
        requires cells { All IsCell xs.now }
        requires others { All IsCell ys.now }
        requires some { 1 ≤ length xs.now }
        requires few { length xs.now ≤ most_window + 1 }
        requires paired { length ys.now ≡ length xs.now }
        requires stands { self.old ≡ pair_sums (take (length xs.now - 1) xs.now) (take (length ys.now - 1) ys.now) }
        ensures value { self.new ≡ pair_sums (drop 1 xs.now) (drop 1 ys.now) }
        ensures small { AreSums self.new }
    {
        let last = xs.len() - 1;
        self.add(xs[last], ys[last]);
        self.remove(xs[0], ys[0]);
    }

    /// The sums of the cells of a window, each paired with its place, from 1 for the oldest.
    pub fn of_places(ys: &[i64]) -> PairSums
        requires cells { All IsCell ys.now }
        requires few { length ys.now ≤ most_window }
        ensures value { result ≡ trend_sums ys.now }
        ensures small { AreSums result }
    {
        let mut sums = PairSums::none();
        for at in 0..ys.len() {
            sums.add(at as i64 + 1, ys[at]);
        }
        sums
    }

    /// The same of the window one cell later, where each cell is one place nearer to the oldest. The windows
    /// before and after are one list: all but its last cell, and all but its first.
    pub fn slide_places(&mut self, ys: &[i64])
        requires cells { All IsCell ys.now }
        requires some { 1 ≤ length ys.now }
        requires few { length ys.now ≤ most_window + 1 }
        requires stands { self.old ≡ trend_sums (take (length ys.now - 1) ys.now) }
        ensures value { self.new ≡ trend_sums (drop 1 ys.now) }
        ensures small { AreSums self.new }
    {
        let last = ys.len() - 1;
        self.add(last as i64 + 1, ys[last]);
        self.remove(1, ys[0]);
        self.lower();
    }

    // The sums of no pair.
    fn none() -> PairSums
        ensures { result ≡ pair_sums [] [] }
    {
        PairSums {
            number: 0,
            x: 0,
            y: 0,
            xx: 0,
            yy: 0,
            xy: 0,
        }
    }

    // With each first value less by one.
    fn lower(&mut self)
        requires { AreSums self.old }
        ensures { self.new ≡ lowered self.old }
    {
        let number = self.number as i128;
        let once = minus(self.xx, self.x);
        let twice = minus(once, self.x);
        self.xx = plus(twice, number);
        self.xy = minus(self.xy, self.y);
        self.x = minus(self.x, number);
    }

    // With one pair more, unless a cell is missing.
    fn add(&mut self, x: i64, y: i64)
        requires sums { AreSums self.old }
        requires x { IsCell x }
        requires y { IsCell y }
        ensures { self.new ≡ added self.old x y }
    {
        if x == MISSING || y == MISSING {
            return;
        }
        self.number += 1;
        self.x = plus(self.x, x as i128);
        self.y = plus(self.y, y as i128);
        self.xx = plus(self.xx, product(x, x));
        self.yy = plus(self.yy, product(y, y));
        self.xy = plus(self.xy, product(x, y));
    }

    // With one pair less, unless a cell is missing.
    fn remove(&mut self, x: i64, y: i64)
        requires sums { AreWithin (most_window + 1) self.old }
        requires x { IsCell x }
        requires y { IsCell y }
        requires some { is_missing x ≡ false → is_missing y ≡ false → 1 ≤ self.old.number }
        ensures { self.new ≡ removed self.old x y }
    {
        if x == MISSING || y == MISSING {
            return;
        }
        self.number -= 1;
        self.x = minus(self.x, x as i128);
        self.y = minus(self.y, y as i128);
        self.xx = minus(self.xx, product(x, x));
        self.yy = minus(self.yy, product(y, y));
        self.xy = minus(self.xy, product(x, y));
    }

    /// How many pairs there are.
    pub fn number(&self) -> usize
        ensures { result ≡ self.now.number }
    {
        self.number
    }

    // The number, and the sums of the values.
    pub(crate) fn whole_number(&self) -> Whole
        requires { AreSums self.now }
        ensures value { result ≡ pos self.now.number }
        ensures small { unsigned_abs result < 2 ^ 11 }
    {
        Whole::new(self.number as i128)
    }

    pub(crate) fn whole_x(&self) -> Whole
        requires { AreSums self.now }
        ensures value { result ≡ self.now.x }
        ensures small { unsigned_abs result < 2 ^ 67 }
    {
        Whole::new(self.x)
    }

    pub(crate) fn whole_y(&self) -> Whole
        requires { AreSums self.now }
        ensures value { result ≡ self.now.y }
        ensures small { unsigned_abs result < 2 ^ 67 }
    {
        Whole::new(self.y)
    }

    // Are the sums small enough for spreads in 128 bits?
    pub(crate) fn are_short(&self) -> bool
        ensures { result ≡ true → AreShort self.now }
    {
        self.x.unsigned_abs() < 1 << 62
            && self.y.unsigned_abs() < 1 << 62
            && self.xx.unsigned_abs() < 1 << 113
            && self.xy.unsigned_abs() < 1 << 113
    }

    // Is the sum of the second squares?
    pub(crate) fn is_short_in_squares(&self) -> bool
        ensures { result ≡ true → unsigned_abs self.now.yy < 2 ^ 113 }
    {
        self.yy.unsigned_abs() < 1 << 113
    }

    // The spreads in 128 bits.
    pub(crate) fn short_spread_x(&self) -> i128
        requires sums { AreSums self.now }
        requires short { AreShort self.now }
        ensures value { result ≡ spread_x self.now }
        ensures small { unsigned_abs result < 2 ^ 125 }
    {
        short_spread(self.number, self.xx, self.x, self.x)
    }

    pub(crate) fn short_spread_y(&self) -> i128
        requires sums { AreSums self.now }
        requires short { AreShort self.now }
        requires squares { unsigned_abs self.now.yy < 2 ^ 113 }
        ensures value { result ≡ spread_y self.now }
        ensures small { unsigned_abs result < 2 ^ 125 }
    {
        short_spread(self.number, self.yy, self.y, self.y)
    }

    pub(crate) fn short_joint_spread(&self) -> i128
        requires sums { AreSums self.now }
        requires short { AreShort self.now }
        ensures value { result ≡ joint_spread self.now }
        ensures small { unsigned_abs result < 2 ^ 125 }
    {
        short_spread(self.number, self.xy, self.x, self.y)
    }

    /// The square of the number times the variance of the first values.
    pub fn spread_x(&self) -> Whole
        requires { AreSums self.now }
        ensures value { result ≡ spread_x self.now }
        ensures small { unsigned_abs result < 2 ^ 135 }
    {
        spread(self.number, self.xx, self.x, self.x)
    }

    /// The square of the number times the variance of the second values.
    pub fn spread_y(&self) -> Whole
        requires { AreSums self.now }
        ensures value { result ≡ spread_y self.now }
        ensures small { unsigned_abs result < 2 ^ 135 }
    {
        spread(self.number, self.yy, self.y, self.y)
    }

    /// The square of the number times the covariance.
    pub fn joint_spread(&self) -> Whole
        requires { AreSums self.now }
        ensures value { result ≡ joint_spread self.now }
        ensures small { unsigned_abs result < 2 ^ 135 }
    {
        spread(self.number, self.xy, self.x, self.y)
    }
}

// The number times a sum of products, less the product of two sums.
fn spread(number: usize, products: i128, x: i128, y: i128) -> Whole
    requires number { number ≤ most_window }
    requires products { unsigned_abs products ≤ most_window * (LIMIT * LIMIT) }
    requires x { unsigned_abs x ≤ most_window * LIMIT }
    requires y { unsigned_abs y ≤ most_window * LIMIT }
    ensures value { result ≡ (pos number *ℤ products) -ℤ (x *ℤ y) }
    ensures small { unsigned_abs result < 2 ^ 135 }
{
    Whole::product(number as i128, products).minus(&Whole::product(x, y))
}

// The same in 128 bits.
fn short_spread(number: usize, products: i128, x: i128, y: i128) -> i128
    requires number { number ≤ most_window }
    requires products { unsigned_abs products < 2 ^ 113 }
    requires x { unsigned_abs x < 2 ^ 62 }
    requires y { unsigned_abs y < 2 ^ 62 }
    ensures value { result ≡ (pos number *ℤ products) -ℤ (x *ℤ y) }
    ensures small { unsigned_abs result < 2 ^ 125 }
{
    number as i128 * products - x * y
}

fn plus(sum: i128, more: i128) -> i128
    requires sum { unsigned_abs sum ≤ 10 ^ 38 }
    requires more { unsigned_abs more ≤ 10 ^ 35 }
    ensures { result ≡ sum +ℤ more }
{
    sum + more
}

fn minus(sum: i128, less: i128) -> i128
    requires sum { unsigned_abs sum ≤ 10 ^ 38 }
    requires less { unsigned_abs less ≤ 10 ^ 35 }
    ensures { result ≡ sum -ℤ less }
{
    sum - less
}

// The product of two cells that are present.
fn product(x: i64, y: i64) -> i128
    requires x { unsigned_abs x ≤ LIMIT }
    requires y { unsigned_abs y ≤ LIMIT }
    ensures value { result ≡ x *ℤ y }
    ensures small { unsigned_abs result ≤ LIMIT * LIMIT }
{
    x as i128 * y as i128
}
