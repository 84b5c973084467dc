//! Session by session.
ghost use Rattle.std.specs.Prelude.{◌≡◌, ◌≢◌, ◌<◌, ◌+◌, ◌^◌, ◌∷◌, ◌≤◌, ℕ, [], true, false, List, length, map, All, IfErr, IfOk, OnErr, OnOk, slice_get, Some, Option};
ghost use Rattle.pl_spec.specs.Dates.{IsDay};
ghost use Rattle.pl_spec.specs.Rounding.{IsCell};
ghost use Rattle.pl_spec.specs.Parts.{sid_at};
ghost use Rattle.pl_pipeline.specs.Table.{NamedColumn, in_array, kept_sids, value_of};
ghost use Rattle.pl_terms.specs.Checked.{pipeline_of};
ghost use Rattle.pl_terms.specs.Uses.{is_used};
ghost use Rattle.pl_daily.specs.Changes.{AreRings, IsHandedIn, column_event};
ghost use Rattle.pl_daily.specs.Columns.{FollowColumns, rings_of};
ghost use Rattle.pl_daily.specs.Days.{FedDay, IsLaterThan, MayFollow, last_session};
ghost use Rattle.pl_daily.specs.declared.term_day.TermCells.{TermCells};
ghost use Rattle.pl_daily.specs.Rows.{rows_lent};
ghost use Rattle.pl_daily.specs.TermDays.{number_row};
ghost use Rattle.pl_daily.specs.Capacities.{column_window, term_window};
ghost use Rattle.pl_daily.specs.Daily.{HasBeenFed, day_work, handed, last_of, start_in, world_in};
ghost use Rattle.pl_daily.specs.Kept.{kept_places};
ghost use Rattle.pl_daily.specs.Reaches.{FollowFirst};
ghost use Rattle.pl_daily.specs.Steps.{Answers, IsMidway, TakeTerms, sessions_of};

use crate::capacities::depths_of;
use crate::columns::BarRings;
use crate::day::Day;
use crate::events::mark_changed;
use crate::fill::{fill_terms, take_reaches};
use crate::kept::{put_kept, screen_row};
use crate::reaches::is_ready;
use crate::ring_starts::begin_rings;
use crate::room::{Room, begin_since, begin_starts, begin_terms, column_windows};
use crate::starts::StartCells;
use crate::term_day::TermCells;
use crate::terms::Lent;
use pl_assets::{Assets, Labels};
use pl_fixed::{Column, Memory, Steps};
use pl_numbers::Numbers;
use pl_planner::count;
use pl_terms::{Checked, TermId};
use std::alloc::Global;
use std::marker::Model;
use std::sync::ledger::Ledger;

/// The day is not later than the last one, which is this, counted from 1970-01-01.
#[derive(Clone, Copy, Debug, PartialEq, Eq)]
pub struct NotLater {
    pub last: i32,
}

/// A pipeline session by session: each morning a day is taken in with the bars of the session before and the
/// adjustments since then, and gives the values of all columns for the assets that the screen keeps. What is
/// held are the rings of bar columns and terms that windows read. All memory is taken at the start. This is
/// the project's own.
pub struct Daily<'a> {
    checked: &'a Checked,
    assets: &'a Assets,
    labels: &'a Labels,
    numbers: Option<&'a Numbers>,
    fed: usize,
    last: i32,
    answered: bool,
    bars: BarRings,
    terms: Vec<TermCells>,
    starts: Vec<StartCells>,
    since: Vec<Option<usize>>,
    kept: Vec<u32>,
    depths: Vec<usize>,
    changed: Vec<bool>,
    room: Room,
}

// One call lets it go, so that no caller's proof goes into its parts.
impl<'a> Drop for Daily<'a> {
    fn drop(self) {
        let Daily {
            checked: _checked,
            assets: _assets,
            labels: _labels,
            numbers: _numbers,
            fed: _fed,
            last: _last,
            answered: _answered,
            bars: _bars,
            terms: _terms,
            starts: _starts,
            since: _since,
            kept: _kept,
            depths: _depths,
            changed: _changed,
            room: _room,
        } = self;
    }
}

impl<'a> Model for Daily<'a> {
    ghost use Rattle.pl_daily.specs.Daily.{Held};
    ghost use Rattle.pl_daily.specs.View.{IsInside, held_of};

    ghost Value = { Held };

    ghost view = { held_of };

    ghost invariant = { IsInside };
}

impl<'a> Daily<'a> {
    /// An evaluation of the pipeline over these assets and labels, which stay lent to it, and over no
    /// numbers; no day was taken in. The only error is want of memory.
    pub fn new(
        alloc: Global,
        checked: &'a Checked,
        assets: &'a Assets,
        labels: &'a Labels,
    ) -> Result<Daily<'a>, Memory>
        requires labels { All (λ r. r.col < length assets.now) labels.now.rows }
        ensures pipeline { IfOk result (λ d. d.pipeline ≡ pipeline_of checked.entry.now) }
        ensures assets { IfOk result (λ d. d.assets ≡ assets.entry.now) }
        ensures labels { IfOk result (λ d. d.labels ≡ labels.entry.now) }
        ensures numbers { IfOk result (λ d. d.numbers ≡ []) }
        ensures none { IfOk result (λ d. d.fed ≡ 0) }
        ensures stands { IfOk result (λ d. HasBeenFed d []) }
    {
        Daily::begin(alloc, checked, assets, labels, None)
    }

    /// The same over these numbers, too, which stay lent to it: a day reads those that were known by then.
    pub fn with_numbers(
        alloc: Global,
        checked: &'a Checked,
        assets: &'a Assets,
        labels: &'a Labels,
        numbers: &'a Numbers,
    ) -> Result<Daily<'a>, Memory>
        requires labels { All (λ r. r.col < length assets.now) labels.now.rows }
        requires numbers { All (λ r. r.col < length assets.now) numbers.now.rows }
        ensures pipeline { IfOk result (λ d. d.pipeline ≡ pipeline_of checked.entry.now) }
        ensures assets { IfOk result (λ d. d.assets ≡ assets.entry.now) }
        ensures labels { IfOk result (λ d. d.labels ≡ labels.entry.now) }
        ensures numbers { IfOk result (λ d. d.numbers ≡ numbers.entry.now.rows) }
        ensures none { IfOk result (λ d. d.fed ≡ 0) }
        ensures stands { IfOk result (λ d. HasBeenFed d []) }
    {
        Daily::begin(alloc, checked, assets, labels, Some(numbers))
    }

    // An evaluation into which no day was taken.
    fn begin(
        alloc: Global,
        checked: &'a Checked,
        assets: &'a Assets,
        labels: &'a Labels,
        numbers: Option<&'a Numbers>,
    ) -> Result<Daily<'a>, Memory>
        requires labels { All (λ r. r.col < length assets.now) labels.now.rows }
        requires numbers { All (λ r. r.col < length assets.now) (rows_lent numbers) }
        ensures pipeline { IfOk result (λ d. d.pipeline ≡ pipeline_of checked.entry.now) }
        ensures assets { IfOk result (λ d. d.assets ≡ assets.entry.now) }
        ensures labels { IfOk result (λ d. d.labels ≡ labels.entry.now) }
        ensures numbers { IfOk result (λ d. d.numbers ≡ rows_lent numbers.entry) }
        ensures none { IfOk result (λ d. d.fed ≡ 0) }
        ensures stands { IfOk result (λ d. HasBeenFed d []) }
    {
        let many = assets.len();
        let terms = count(checked);
        let depths = depths_of(alloc, checked)?;
        Ok(Daily {
            checked,
            assets,
            labels,
            numbers,
            fed: 0,
            last: 0,
            answered: false,
            bars: begin_rings(alloc, many, column_windows(checked, &depths))?,
            terms: begin_terms(alloc, checked, &depths, many)?,
            starts: begin_starts(alloc, checked, many)?,
            since: begin_since(alloc, terms)?,
            kept: Vec::with_capacity(alloc, many)?,
            depths,
            changed: vec![in alloc; false; many]?,
            room: Room::reserve(alloc, many, terms)?,
        })
    }

    // The last day, where one was fed.
    fn last_day(&self) -> Option<i32>
        ensures { result ≡ last_of self.now }
    {
        if self.fed == 0 { None } else { Some(self.last) }
    }

    // Does the day come after the last one?
    fn is_later(&self, day: &Day) -> bool
        ensures later { result ≡ true → IsLaterThan (last_of self.now) day.now.day }
        ensures not_later { result ≡ false → IsLaterThan (last_of self.now) day.now.day → ⊥ }
        ensures last { result ≡ false → self.now.fed ≢ 0 }
    {
        self.fed == 0 || self.last < day.day
    }

    // Takes the day into the rings of bars.
    fn take_bars<L: Ledger>(&mut self, day: &Day, steps: &mut Steps<L>)
        requires { IsHandedIn (length self.old.assets) self.old.fed day.now.bars.now day.now.events.now }
        ensures bars { FollowColumns day.now.day day.now.bars.now day.now.events.now self.old.fed
            self.old.bars self.new.bars }
        ensures rest { self.new ≡ record self.old { bars = self.new.bars } }
        ensures cost { steps.new ≡ steps.old
            + day_work self.old.pipeline self.old.fed day.now.events.now }
    {
        self.bars.advance(day, self.fed, steps);
    }

    // Takes it into the terms.
    fn take_terms(&mut self, day: &Day)
        requires { (next : FedDay) × (days : List FedDay)
            × IsMidway self.old day.now.day (map column_event day.now.events.now) next days }
        ensures terms { TakeTerms day.now.day (map column_event day.now.events.now) self.old self.new }
        ensures many { length self.new.terms ≡ length self.old.pipeline.graph }
        ensures all { length self.new.starts ≡ length self.old.pipeline.graph }
        ensures rest { self.new ≡ record self.old { terms = self.new.terms; starts = self.new.starts } }
    {
        let last = self.last_day();
        mark_changed(day.events, &mut self.changed);
        let lent = Lent {
            checked: self.checked,
            assets: self.assets,
            labels: self.labels,
            numbers: self.numbers,
            bars: &self.bars,
            day: day.day,
            last,
            fed: self.fed,
            depths: &self.depths,
            changed: &self.changed,
        };
        fill_terms(&lent, &mut self.terms, &mut self.starts, &mut self.room);
    }

    // Takes its session in.
    fn take_session(&mut self, day: &Day)
        requires few { self.old.fed < 2 ^ 32 }
        ensures since { FollowFirst self.old.pipeline (sessions_of self.old.starts) self.old.fed
            self.old.since self.new.since }
        ensures answer { Answers self.old.pipeline self.new.since self.new.answered }
        ensures fed { self.new.fed ≡ self.old.fed + 1 }
        ensures last { self.new.last ≡ day.now.day }
        ensures rest { self.new ≡ record self.old {
          since = self.new.since;
          answered = self.new.answered;
          fed = self.new.fed;
          last = self.new.last;
        } }
    {
        take_reaches(
            self.checked,
            &self.starts,
            self.fed,
            &mut self.room,
            &mut self.since,
        );
        self.answered = is_ready(self.checked, &self.since);
        self.fed += 1;
        self.last = day.day;
    }

    // Puts who is kept where the day has values.
    fn take_kept(&mut self)
        ensures kept { self.old.answered ≡ true → self.new.kept ≡ kept_places self.old.assets self.old.last
            (number_row self.old.terms self.old.pipeline.screen) }
        ensures rest { self.new ≡ record self.old { kept = self.new.kept } }
    {
        if self.answered {
            let screen = screen_row(self.checked, &self.terms);
            put_kept(self.assets, self.last, screen, &mut self.kept);
        }
    }

    /// Takes a day in, which is a session, and gives whether it has values: whether no column and no screen
    /// needs a session before the first day. The error is that the day is not later than the last one, and
    /// then nothing changes. It takes no memory. Each ratio counts one step for each bar of a ring that it
    /// changes.
    pub fn advance<L: Ledger>(&mut self, day: &Day, steps: &mut Steps<L>) -> Result<bool, NotLater>
        requires day { IsDay day.now.day }
        requires may_follow { IsLaterThan (last_of self.old) day.now.day
            → (days : List FedDay) × HasBeenFed self.old days
            × MayFollow (start_in self.old) days (handed day.now) }
        ensures accepted { OnOk result (IsLaterThan (last_of self.old) day.now.day) }
        ensures refused { IfErr result (λ e. last_of self.old ≡ Some e.last) }
        ensures not_later { OnErr result (IsLaterThan (last_of self.old) day.now.day → ⊥) }
        ensures stays { OnErr result (self.new ≡ self.old) }
        ensures no_cost { OnErr result (steps.new ≡ steps.old) }
        ensures follow { OnOk result ((days : List FedDay) → HasBeenFed self.old days
            → MayFollow (start_in self.old) days (handed day.now)
            → HasBeenFed self.new (handed day.now ∷ days)) }
        ensures answer { IfOk result (λ b. b ≡ self.new.answered) }
        ensures fed { OnOk result (self.new.fed ≡ self.old.fed + 1) }
        ensures cost { OnOk result (steps.new ≡ steps.old
            + day_work self.old.pipeline self.old.fed day.now.events.now) }
        ensures pipeline { self.new.pipeline ≡ self.old.pipeline }
        ensures assets { self.new.assets ≡ self.old.assets }
        ensures labels { self.new.labels ≡ self.old.labels }
        ensures numbers { self.new.numbers ≡ self.old.numbers }
    {
        if !self.is_later(day) {
            return Err(NotLater { last: self.last });
        }
        self.take_bars(day, steps);
        self.take_terms(day);
        self.take_session(day);
        self.take_kept();
        Ok(self.answered)
    }

    /// The columns of the assets that the screen keeps on the last day, ascending, which are those of the
    /// table's rows. The day must have values, which `advance` said.
    pub fn kept(&self) -> &[u32]
        requires { self.now.answered ≡ true }
        ensures is { result.now ≡ self.now.kept }
        ensures within { All (λ c. c < length self.now.assets) result.now }
        ensures kept { (days : List FedDay) → HasBeenFed self.now days
            → map (sid_at self.now.assets) result.now
            ≡ kept_sids (world_in self.now days) self.now.pipeline (last_session days) }
    {
        &self.kept
    }

    /// The value of a column on the last day for the i-th asset of `kept`, from 0, as arrays hold it: a cell
    /// in millionths, 0 or 1, or the code of a label; `MISSING` where it is empty.
    pub fn value(&self, column: usize, i: usize) -> i64
        requires answered { self.now.answered ≡ true }
        requires column { column < length self.now.pipeline.columns }
        requires kept { i < length self.now.kept }
        ensures cell { IsCell result }
        ensures value { (days : List FedDay) (c : NamedColumn) (a : ℕ) → HasBeenFed self.now days
            → slice_get self.now.pipeline.columns column ≡ Some c → slice_get self.now.kept i ≡ Some a
            → result ≡ in_array self.now.labels.texts (value_of (world_in self.now days) self.now.pipeline
            c.term (sid_at self.now.assets a) (last_session days)) }
    {
        let term = self.checked.column_term(column);
        let col = self.kept[i];
        self.terms[term.0 as usize].row[col as usize]
    }

    /// How many sessions the rings of a bar column have, 0 where no term reads it.
    pub fn column_ring(&self, column: Column) -> usize
        ensures window { result ≡ column_window self.now.pipeline column }
        ensures room { (rings_of self.now.bars column).capacity ≡ result }
        ensures rings { AreRings (length self.now.assets) result (rings_of self.now.bars column).rings.items }
    {
        self.bars.of(column).capacity
    }

    /// How many sessions the rings of a term have, 0 where no window is over it.
    pub fn term_ring(&self, t: TermId) -> usize
        requires { t.0 < length self.now.pipeline.graph }
        ensures window { result ≡ term_window self.now.pipeline t.0 }
        ensures room { (c : TermCells) → slice_get self.now.terms t.0 ≡ Some c → c.rings.capacity ≡ result }
        ensures rings { (c : TermCells) → is_used self.now.pipeline t.0 ≡ true → 0 < result
            → slice_get self.now.terms t.0 ≡ Some c
            → AreRings (length self.now.assets) result c.rings.rings.items }
    {
        self.terms[t.0 as usize].rings.capacity
    }
}
