//! Comparisons, filters joined and choices, place by place: eight places at a time, and then one by one.

ghost use Rattle.std.specs.Prelude.{◌≡◌, ◌+◌, ◌≤◌, ◌<◌, ◌&&◌, ◌||◌, ℕ, pos, length, get_or, if◌then◌else◌};
ghost use Rattle.std.specs.List.{All};
ghost use Rattle.pl_spec.specs.Rounding.{IsCell};
ghost use Rattle.pl_spec.specs.Cells.{comparison, truth, is_true};
ghost use Rattle.pl_lanes.specs.Flags.{IsFlag};
ghost use Rattle.pl_lanes.specs.Kernels.{AreTaken, AreLanes, given_at};
ghost use Rattle.pl_lanes.specs.Written.{IsWritten};

use crate::eight::{eight, heights, stored};
use crate::flags::{compare, flags};
use crate::masks::{flag_joined, lanes_joined};
use crate::selection::{chosen, lanes_select};
use pl_spec::Compare;
use std::simd::prelude::*;

/// What is done with the two values of a place: they are compared; both are asked to be true, or one of them;
/// or one is chosen, by a filter.
#[derive(Clone, Copy)]
pub(crate) enum Kernel<'a> {
    Compares(Compare),
    Joins { both: bool },
    Chooses(&'a [i64]),
}

/// Writes 1 at each place where the comparison of the two cells holds, and 0 elsewhere. It does not hold
/// where a side is missing, `!=` too, where Zipline's `!=` of a NaN does. The slices have one length.
pub fn compare_mask(op: Compare, a: &[i64], b: &[i64], out: &mut [i64])
    requires left { All IsCell a.now }
    requires right { All IsCell b.now }
    requires left_length { length a.now ≡ length out.old }
    requires right_length { length b.now ≡ length out.old }
    ensures length { length out.new ≡ length out.old }
    ensures flags { (k : ℕ) → k < length out.old
        → get_or out.new k (pos 0) ≡ comparison op (get_or a.now k (pos 0)) (get_or b.now k (pos 0)) }
{
    write(Kernel::Compares(op), a, b, out);
}

/// Writes 1 at each place where both filters are 1, and 0 elsewhere. The slices have one length.
pub fn and_mask(a: &[i64], b: &[i64], out: &mut [i64])
    requires left { All IsFlag a.now }
    requires right { All IsFlag b.now }
    requires left_length { length a.now ≡ length out.old }
    requires right_length { length b.now ≡ length out.old }
    ensures length { length out.new ≡ length out.old }
    ensures flags { (k : ℕ) → k < length out.old → get_or out.new k (pos 0)
        ≡ truth (is_true (get_or a.now k (pos 0)) && is_true (get_or b.now k (pos 0))) }
{
    write(Kernel::Joins { both: true }, a, b, out);
}

/// Writes 1 at each place where one of the filters is 1, or both are, and 0 elsewhere. The slices have one
/// length.
pub fn or_mask(a: &[i64], b: &[i64], out: &mut [i64])
    requires left { All IsFlag a.now }
    requires right { All IsFlag b.now }
    requires left_length { length a.now ≡ length out.old }
    requires right_length { length b.now ≡ length out.old }
    ensures length { length out.new ≡ length out.old }
    ensures flags { (k : ℕ) → k < length out.old → get_or out.new k (pos 0)
        ≡ truth (is_true (get_or a.now k (pos 0)) || is_true (get_or b.now k (pos 0))) }
{
    write(Kernel::Joins { both: false }, a, b, out);
}

/// Writes at each place the cell of `a` where the filter is 1, and that of `b` where it is 0; either may be
/// `MISSING`. The slices have one length.
pub fn select(f: &[i64], a: &[i64], b: &[i64], out: &mut [i64])
    requires flags { All IsFlag f.now }
    requires left { All IsCell a.now }
    requires right { All IsCell b.now }
    requires flags_length { length f.now ≡ length out.old }
    requires left_length { length a.now ≡ length out.old }
    requires right_length { length b.now ≡ length out.old }
    ensures length { length out.new ≡ length out.old }
    ensures cells { (k : ℕ) → k < length out.old → get_or out.new k (pos 0)
        ≡ (if is_true (get_or f.now k (pos 0)) then get_or a.now k (pos 0) else get_or b.now k (pos 0)) }
{
    write(Kernel::Chooses(f), a, b, out);
}

// Writes at each place what the kernel gives.
#[inline(always)]
fn write(kernel: Kernel, a: &[i64], b: &[i64], out: &mut [i64])
    requires taken { AreTaken kernel (length a.now) a.now b.now }
    requires left_length { length a.now ≡ length out.old }
    requires right_length { length b.now ≡ length out.old }
    ensures length { length out.new ≡ length out.old }
    ensures each { (k : ℕ) → k < length out.old
        → get_or out.new k (pos 0) ≡ given_at kernel.entry a.now b.now k }
{
    let at = write_blocks(kernel, a, b, out);
    write_rest(kernel, a, b, at, out);
}

// As far as eight places are left; the result is the first place that is not written.
#[inline(always)]
fn write_blocks(kernel: Kernel, a: &[i64], b: &[i64], out: &mut [i64]) -> usize
    requires taken { AreTaken kernel (length a.now) a.now b.now }
    requires left_length { length a.now ≡ length out.old }
    requires right_length { length b.now ≡ length out.old }
    ensures end { result ≤ length out.old }
    ensures length { length out.new ≡ length out.old }
    ensures written { IsWritten out.new out.old 0 result (given_at kernel.entry a.now b.now) }
{
    let mut at = 0usize;
    'eights: while out.len() - at >= 8 {
        stored(lanes(kernel, a, b, at), out, at);
        at += 8;
    }
    at
}

// The places from `from` on.
#[inline(always)]
fn write_rest(kernel: Kernel, a: &[i64], b: &[i64], from: usize, out: &mut [i64])
    requires taken { AreTaken kernel (length a.now) a.now b.now }
    requires left_length { length a.now ≡ length out.old }
    requires right_length { length b.now ≡ length out.old }
    requires from { from ≤ length out.old }
    ensures length { length out.new ≡ length out.old }
    ensures written { IsWritten out.new out.old from (length out.old) (given_at kernel.entry a.now b.now) }
{
    for at in from..out.len() {
        out[at] = given(kernel, a, b, at);
    }
}

// What the kernel gives for eight places.
#[inline(always)]
fn lanes(kernel: Kernel, a: &[i64], b: &[i64], at: usize) -> u64x8
    requires taken { AreTaken kernel (length a.now) a.now b.now }
    requires left { at + 8 ≤ length a.now }
    requires right { at + 8 ≤ length b.now }
    ensures { AreLanes at result (given_at kernel.entry a.now b.now) }
{
    match kernel {
        Kernel::Compares(op) => flags(op, heights(a, at), heights(b, at)),
        Kernel::Joins { both } => lanes_joined(both, eight(a, at), eight(b, at)),
        Kernel::Chooses(f) => lanes_select(eight(f, at), eight(a, at), eight(b, at)),
    }
}

// What the kernel gives for one place.
#[inline(always)]
fn given(kernel: Kernel, a: &[i64], b: &[i64], at: usize) -> i64
    requires taken { AreTaken kernel (length a.now) a.now b.now }
    requires left { at < length a.now }
    requires right { at < length b.now }
    ensures { result ≡ given_at kernel.entry a.now b.now at }
{
    match kernel {
        Kernel::Compares(op) => compare(op, a[at], b[at]),
        Kernel::Joins { both } => flag_joined(both, a[at], b[at]),
        Kernel::Chooses(f) => chosen(f[at], a[at], b[at]),
    }
}
