//! The memory of a daily evaluation, all of it taken before the first day.
ghost use Rattle.std.specs.Prelude.{false, ◌≡◌, ◌<◌, ℕ, true, length, replicate, IfOk};
ghost use Rattle.pl_spec.specs.declared.Frequency.{Frequency};
ghost use Rattle.pl_terms.specs.Checked.{pipeline_of};
ghost use Rattle.pl_terms.specs.Uses as uses;
ghost use Rattle.pl_spec.specs.Rounding.{IsCell};
ghost use Rattle.pl_values.specs.Arrays.{empty_cell};
ghost use Rattle.pl_daily.specs.Capacities as spec;
ghost use Rattle.pl_daily.specs.Inside.{AreDepths, IsNumber};
ghost use Rattle.pl_daily.specs.Room.{AreBegun, AreBegunStarts, HasColumns, IsBegun, IsRoom, no_session};
ghost use Rattle.pl_daily.specs.Terms.{Downsamples, IsStartRoom};

use crate::capacities::{column_window, is_used, term_window};
use crate::held::begin_term;
use crate::ring_starts::Capacities;
use crate::starts::StartCells;
use crate::term_day::TermCells;
use pl_cross::Cross;
use pl_fixed::{Column, Memory};
use pl_planner::{count, node_at};
use pl_terms::{Checked, TermId, frequency_of};
use pl_values::empty_value;
use std::alloc::Global;

/// How many cells the longest window has.
const MOST_CELLS: usize = 1_260;

/// Room for a day: cross-sections, three windows of cells, who is kept and a term's row; and by number of the
/// term a session.
#[derive(Drop)]
pub struct Room {
    pub cross: Cross,
    pub first: Vec<i64>,
    pub second: Vec<i64>,
    pub third: Vec<i64>,
    pub keep: Vec<i64>,
    pub out: Vec<i64>,
    pub sessions: Vec<usize>,
}

impl Room {
    /// Room for so many assets and terms. The only error is that there is none.
    pub fn reserve(alloc: Global, assets: usize, terms: usize) -> Result<Room, Memory>
        ensures { IfOk result (IsRoom assets terms) }
    {
        Ok(Room {
            cross: Cross::reserve(alloc, assets)?,
            first: vec![in alloc; 0; MOST_CELLS]?,
            second: vec![in alloc; 0; MOST_CELLS]?,
            third: vec![in alloc; 0; MOST_CELLS]?,
            keep: vec![in alloc; 0; assets]?,
            out: vec![in alloc; 0; assets]?,
            sessions: vec![in alloc; 0; terms]?,
        })
    }
}

/// How many sessions the rings of each bar column need.
pub(crate) fn column_windows(checked: &Checked, depths: &[usize]) -> Capacities
    requires { AreDepths (pipeline_of checked.now) depths.now }
    ensures { HasColumns (pipeline_of checked.now) result }
{
    Capacities {
        open_price: column_window(checked, depths, Column::OpenPrice),
        high: column_window(checked, depths, Column::High),
        low: column_window(checked, depths, Column::Low),
        close: column_window(checked, depths, Column::Close),
        volume: column_window(checked, depths, Column::Volume),
    }
}

// How many cells a term has in a row: one for each asset where it is used, and else none.
fn cell_count(checked: &Checked, assets: usize, k: usize) -> usize
    requires { IsNumber (pipeline_of checked.now) k }
    ensures used { uses.is_used (pipeline_of checked.now) k ≡ true → result ≡ assets }
    ensures idle { uses.is_used (pipeline_of checked.now) k ≡ false → result ≡ 0 }
{
    if is_used(checked, k) { assets } else { 0 }
}

// What a term has for an asset that is not kept.
fn empty_of(checked: &Checked, k: usize) -> i64
    requires { IsNumber (pipeline_of checked.now) k }
    ensures value { result ≡ empty_cell (pipeline_of checked.now) k }
    ensures cell { IsCell result }
{
    empty_value(checked.graph(), TermId(k as u8))
}

// How many sessions the rings of a term need.
fn ring_size(checked: &Checked, depths: &[usize], k: usize) -> usize
    requires number { IsNumber (pipeline_of checked.now) k }
    requires depths { AreDepths (pipeline_of checked.now) depths.now }
    ensures { result ≡ spec.term_window (pipeline_of checked.now) k }
{
    term_window(checked, depths, TermId(k as u8))
}

// What is held of a term before the first day.
fn begin_one(
    alloc: Global,
    checked: &Checked,
    depths: &[usize],
    assets: usize,
    k: usize,
) -> Result<TermCells, Memory>
    requires number { IsNumber (pipeline_of checked.now) k }
    requires depths { AreDepths (pipeline_of checked.now) depths.now }
    ensures { IfOk result (IsBegun assets (pipeline_of checked.now) k) }
{
    let cells = cell_count(checked, assets, k);
    let size = ring_size(checked, depths, k);
    begin_term(alloc, cells, size, empty_of(checked, k))
}

/// What is held of all terms before the first day.
pub(crate) fn begin_terms(
    alloc: Global,
    checked: &Checked,
    depths: &[usize],
    assets: usize,
) -> Result<Vec<TermCells>, Memory>
    requires { AreDepths (pipeline_of checked.now) depths.now }
    ensures { IfOk result (λ terms. AreBegun assets (pipeline_of checked.now)
        (length (pipeline_of checked.now).graph) terms.items) }
{
    let mut terms = Vec::new(alloc);
    for k in 0..count(checked) {
        let term = begin_one(alloc, checked, depths, assets, k)?;
        terms.push(term)?;
    }
    Ok(terms)
}

// Whether a term is used and downsampled.
fn is_downsampled(checked: &Checked, k: usize) -> bool
    requires { IsNumber (pipeline_of checked.now) k }
    ensures { (f : Frequency) (u : ℕ) → Downsamples (pipeline_of checked.now) k f u → result ≡ true }
{
    let node = node_at(checked, k);
    frequency_of(&node.kind).is_some()
}

// How many cells are held for the start of a term: one for each asset where it is used and downsampled.
fn start_count(checked: &Checked, assets: usize, k: usize) -> usize
    requires { IsNumber (pipeline_of checked.now) k }
    ensures { (f : Frequency) (u : ℕ) → Downsamples (pipeline_of checked.now) k f u → result ≡ assets }
{
    if is_downsampled(checked, k) {
        assets
    } else {
        0
    }
}

// What is held for the start of a term before the first day.
fn begin_start(
    alloc: Global,
    checked: &Checked,
    assets: usize,
    k: usize,
) -> Result<StartCells, Memory>
    requires { IsNumber (pipeline_of checked.now) k }
    ensures { IfOk result (IsStartRoom assets (pipeline_of checked.now) k) }
{
    let row = vec![in alloc; 0; start_count(checked, assets, k)]?;
    Ok(StartCells { row, session: 0 })
}

/// What is held for the starts of all terms before the first day.
pub(crate) fn begin_starts(
    alloc: Global,
    checked: &Checked,
    assets: usize,
) -> Result<Vec<StartCells>, Memory>
    ensures { IfOk result (λ starts. AreBegunStarts assets (pipeline_of checked.now)
        (length (pipeline_of checked.now).graph) starts.items) }
{
    let mut starts = Vec::new(alloc);
    for k in 0..count(checked) {
        let start = begin_start(alloc, checked, assets, k)?;
        starts.push(start)?;
    }
    Ok(starts)
}

/// No term has its first session.
pub(crate) fn begin_since(alloc: Global, terms: usize) -> Result<Vec<Option<usize>>, Memory>
    ensures { IfOk result (λ since. since.items ≡ replicate terms no_session) }
{
    Ok(vec![in alloc; None; terms]?)
}
