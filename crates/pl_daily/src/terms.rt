//! All used terms in ascending number, each over the rows and rings of lower ones.
ghost use Rattle.std.specs.Prelude.{◌≡◌, ◌<◌, ◌≤◌, ◌∷◌, ℕ, true, false, List, length, get_or, slice_get, Some, All};
ghost use Rattle.pl_spec.specs.Rounding.{IsCell};
ghost use Rattle.pl_terms.specs.Uses.{is_used};
ghost use Rattle.pl_daily.specs.Days.{FedDay};
ghost use Rattle.pl_daily.specs.Room.{IsRoom};
ghost use Rattle.pl_daily.specs.Terms.{AreStarts, AreTerms, FollowTermAt, FollowTerms, IsAt, IsPlaced};
ghost use Rattle.pl_daily.specs.Terms.{FollowNewest, FollowOwn, FollowPut, HaveRoom, IsNewestAt, IsOwnAt, IsReadEarlier};
ghost use Rattle.pl_daily.specs.Terms.{is_read_earlier};
ghost use Rattle.pl_daily.specs.Held.{AreTermCells};
ghost use Rattle.pl_daily.specs.Inside.{AreDepths};
ghost use Rattle.pl_daily.specs.declared.term_day.TermCells.{TermCells};
ghost use Rattle.pl_values.specs.Views.{keeps_kind};
ghost use Rattle.pl_daily.specs.Changes.{AreRings, ring_at};
ghost use Rattle.pl_daily.specs.Earlier.{IsReadBack, IsRenewed};
ghost use Rattle.pl_daily.specs.TermDays as days;
ghost use Rattle.pl_daily.specs.TermDays.{IsTermDay, Moment, node_at};
ghost use Rattle.pl_daily.specs.Terms.{IsLent, IsRowOf, IsStartRoom, assets_at, pipeline_at, rooms};

use crate::anew::renew_ring;
use crate::columns::BarRings;
use crate::held::put_term;
use crate::room::Room;
use crate::row::fill_row;
use crate::starts::{StartCells, take_start};
use crate::term_day::{TermCells, TermDay};
use circular_buffer::HeapCircularBuffer;
use pl_assets::{Assets, Labels};
use pl_numbers::Numbers;
use pl_terms::{Checked, TermId};

/// What the terms of a day are computed from: the pipeline, the assets, their labels and numbers, the rings
/// of bars with the day, the day itself, the one before it, if there is one, and how many there are before
/// it. Days are counted from 1970-01-01. `depths` has by number on how many earlier sessions a term is read
/// as it is seen on the day, `changed` by column whether the asset has adjustments of the day.
#[derive(Clone, Copy)]
pub struct Lent<'t> {
    pub checked: &'t Checked,
    pub assets: &'t Assets,
    pub labels: &'t Labels,
    pub numbers: Option<&'t Numbers>,
    pub bars: &'t BarRings,
    pub day: i32,
    pub last: Option<i32>,
    pub fed: usize,
    pub depths: &'t [usize],
    pub changed: &'t [bool],
}

// What the types keep of what is lent is at hand after one call, which does nothing.
fn is_lent(lent: &Lent<'_>)
    ensures { IsLent lent.now }
{
    lent.checked.graph();
    lent.assets.len();
    lent.labels.len();
}

// The row of a used term on the day.
fn term_row(lent: &Lent<'_>, terms: &[TermCells], term: TermId, start: &StartCells, room: &mut Room)
    requires placed { (next : FedDay) × (days : List FedDay)
        × IsAt lent.now term.0 terms.now start.now (next ∷ days) next days }
    requires terms { AreTerms (assets_at lent.now) (pipeline_at lent.now) lent.now.bars.now terms.now }
    requires start { IsStartRoom (assets_at lent.now) (pipeline_at lent.now) term.0 start.now }
    requires used { is_used (pipeline_at lent.now) term.0 ≡ true }
    requires lent { IsLent lent.now }
    requires known { term.0 < length lent.now.checked.now.graph }
    requires room { IsRoom (assets_at lent.now) (length (pipeline_at lent.now).graph) room.old }
    ensures row { IsRowOf lent.now term.0 terms.now start.now room.new.out.items }
    ensures cells { All IsCell room.new.out.items }
    ensures room { IsRoom (assets_at lent.now) (length (pipeline_at lent.now).graph) room.new }
{
    let term_day = TermDay {
        checked: lent.checked,
        assets: lent.assets,
        labels: lent.labels,
        numbers: lent.numbers,
        bars: lent.bars,
        terms,
        term,
        node: lent.checked.graph().node(term),
        start: &start.row,
        day: lent.day,
    };
    fill_row(
        &term_day,
        &mut room.cross,
        &mut room.first,
        &mut room.second,
        &mut room.third,
        &mut room.keep,
        &mut room.out,
    );
}

// Computes the earlier cells of the term's rings anew, for the assets with adjustments of the day.
fn renew_rings(
    term_day: &TermDay<'_>,
    lent: &Lent<'_>,
    first: &mut [i64],
    second: &mut [i64],
    third: &mut [i64],
    rings: &mut [HeapCircularBuffer<i64>],
)
    requires held { (v : Moment) × (size : ℕ) × AreRings (assets_at lent.now) size rings.old
        × IsTermDay term_day.now v × IsReadBack term_day.now v lent.now.fed size }
    requires moves { keeps_kind (node_at term_day.now).kind ≡ false }
    requires assets { days.assets_at term_day.now ≡ assets_at lent.now }
    requires marked { length lent.now.changed.now ≡ assets_at lent.now }
    requires first { (node_at term_day.now).window ≤ length first.old }
    requires second { (node_at term_day.now).window ≤ length second.old }
    requires third { (node_at term_day.now).window ≤ length third.old }
    ensures rings { (size : ℕ) → AreRings (assets_at lent.now) size rings.old
        → AreRings (assets_at lent.now) size rings.new }
    ensures renewed { (i : ℕ) → i < length rings.old → get_or lent.now.changed.now i true ≡ true
        → IsRenewed term_day.now lent.now.fed i (ring_at rings.old i).items (ring_at rings.new i).items }
    ensures others { (i : ℕ) → i < length rings.old → get_or lent.now.changed.now i true ≡ false
        → ring_at rings.new i ≡ ring_at rings.old i }
    ensures first { length first.new ≡ length first.old }
    ensures second { length second.new ≡ length second.old }
    ensures third { length third.new ≡ length third.old }
{
    for i in 0..rings.len() {
        if lent.changed[i] {
            renew_ring(term_day, i, lent.fed, first, second, third, &mut rings[i]);
        }
    }
}

// The same of a used term that has the day's row and newest cells; `below` are the terms below it.
fn renew_own(
    lent: &Lent<'_>,
    below: &[TermCells],
    term: TermId,
    start: &StartCells,
    room: &mut Room,
    own: &mut TermCells,
)
    requires placed { (next : FedDay) × (days : List FedDay)
        × IsOwnAt lent.now term.0 below.now own.old start.now next days }
    requires terms { HaveRoom (assets_at lent.now) (pipeline_at lent.now) lent.now.bars.now below.now }
    requires many { length below.now ≡ term.0 }
    requires own { IsReadEarlier (assets_at lent.now) (pipeline_at lent.now) term.0 own.old }
    requires start { IsStartRoom (assets_at lent.now) (pipeline_at lent.now) term.0 start.now }
    requires used { is_used (pipeline_at lent.now) term.0 ≡ true }
    requires lent { IsLent lent.now }
    requires known { term.0 < length lent.now.checked.now.graph }
    requires room { IsRoom (assets_at lent.now) (length (pipeline_at lent.now).graph) room.old }
    ensures follow { FollowOwn lent.now term.0 below.now own.old start.now own.new }
    ensures full { AreTermCells (assets_at lent.now) own.new }
    ensures capacity { own.new.rings.capacity ≡ own.old.rings.capacity }
    ensures room { IsRoom (assets_at lent.now) (length (pipeline_at lent.now).graph) room.new }
{
    let term_day = TermDay {
        checked: lent.checked,
        assets: lent.assets,
        labels: lent.labels,
        numbers: lent.numbers,
        bars: lent.bars,
        terms: below,
        term,
        node: lent.checked.graph().node(term),
        start: &start.row,
        day: lent.day,
    };
    renew_rings(
        &term_day,
        lent,
        &mut room.first,
        &mut room.second,
        &mut room.third,
        &mut own.rings.rings,
    );
}

// The same, where it is among all terms.
fn renew_term(
    lent: &Lent<'_>,
    terms: &mut [TermCells],
    term: TermId,
    start: &StartCells,
    room: &mut Room,
)
    requires placed { (next : FedDay) × (days : List FedDay)
        × IsNewestAt lent.now term.0 terms.old start.now next days }
    requires terms { AreTerms (assets_at lent.now) (pipeline_at lent.now) lent.now.bars.now terms.old }
    requires own { (t : TermCells) → slice_get terms.old term.0 ≡ Some t
        → IsReadEarlier (assets_at lent.now) (pipeline_at lent.now) term.0 t }
    requires start { IsStartRoom (assets_at lent.now) (pipeline_at lent.now) term.0 start.now }
    requires used { is_used (pipeline_at lent.now) term.0 ≡ true }
    requires lent { IsLent lent.now }
    requires known { term.0 < length lent.now.checked.now.graph }
    requires room { IsRoom (assets_at lent.now) (length (pipeline_at lent.now).graph) room.old }
    ensures follow { FollowNewest lent.now term.0 terms.old start.now terms.new }
    ensures terms { AreTerms (assets_at lent.now) (pipeline_at lent.now) lent.now.bars.now terms.new }
    ensures rooms { rooms terms.new ≡ rooms terms.old }
    ensures room { IsRoom (assets_at lent.now) (length (pipeline_at lent.now).graph) room.new }
{
    let (below, rest) = terms.split_at_mut(term.0 as usize);
    renew_own(lent, below, term, start, room, &mut rest[0]);
}

// Whether the term is read on earlier sessions as it is seen on the day.
fn is_read_earlier(lent: &Lent<'_>, terms: &[TermCells], term: TermId) -> bool
    requires depths { AreDepths (pipeline_at lent.now) lent.now.depths.now }
    requires known { term.0 < length (pipeline_at lent.now).graph }
    requires many { length terms.now ≡ length (pipeline_at lent.now).graph }
    ensures { result ≡ is_read_earlier (pipeline_at lent.now) term.0 (slice_get terms.now term.0) }
{
    lent.depths[term.0 as usize] > 0 && terms[term.0 as usize].rings.capacity > 1
}

// Puts the day's row and newest cells into a used term; those below have the day already.
fn put_row(
    lent: &Lent<'_>,
    terms: &mut [TermCells],
    term: TermId,
    start: &mut StartCells,
    room: &mut Room,
)
    requires placed { (next : FedDay) × (days : List FedDay)
        × IsAt lent.now term.0 terms.old start.old days next days }
    requires terms { AreTerms (assets_at lent.now) (pipeline_at lent.now) lent.now.bars.now terms.old }
    requires start { IsStartRoom (assets_at lent.now) (pipeline_at lent.now) term.0 start.old }
    requires used { is_used (pipeline_at lent.now) term.0 ≡ true }
    requires lent { IsLent lent.now }
    requires known { term.0 < length lent.now.checked.now.graph }
    requires room { IsRoom (assets_at lent.now) (length (pipeline_at lent.now).graph) room.old }
    ensures follow { FollowPut lent.now term.0 terms.old start.old terms.new start.new }
    ensures terms { AreTerms (assets_at lent.now) (pipeline_at lent.now) lent.now.bars.now terms.new }
    ensures start { IsStartRoom (assets_at lent.now) (pipeline_at lent.now) term.0 start.new }
    ensures rooms { rooms terms.new ≡ rooms terms.old }
    ensures room { IsRoom (assets_at lent.now) (length (pipeline_at lent.now).graph) room.new }
{
    take_start(lent, terms, term, start);
    term_row(lent, terms, term, start, room);
    put_term(&mut terms[term.0 as usize], &room.out);
}

// Takes the day into a used term; those below it have it already.
fn advance_term(
    lent: &Lent<'_>,
    terms: &mut [TermCells],
    term: TermId,
    start: &mut StartCells,
    room: &mut Room,
)
    requires placed { (next : FedDay) × (days : List FedDay)
        × IsAt lent.now term.0 terms.old start.old days next days }
    requires terms { AreTerms (assets_at lent.now) (pipeline_at lent.now) lent.now.bars.now terms.old }
    requires start { IsStartRoom (assets_at lent.now) (pipeline_at lent.now) term.0 start.old }
    requires used { is_used (pipeline_at lent.now) term.0 ≡ true }
    requires lent { IsLent lent.now }
    requires known { term.0 < length lent.now.checked.now.graph }
    requires room { IsRoom (assets_at lent.now) (length (pipeline_at lent.now).graph) room.old }
    ensures follow { FollowTermAt lent.now term.0 terms.old start.old terms.new start.new }
    ensures terms { AreTerms (assets_at lent.now) (pipeline_at lent.now) lent.now.bars.now terms.new }
    ensures start { IsStartRoom (assets_at lent.now) (pipeline_at lent.now) term.0 start.new }
    ensures rooms { rooms terms.new ≡ rooms terms.old }
    ensures room { IsRoom (assets_at lent.now) (length (pipeline_at lent.now).graph) room.new }
{
    put_row(lent, terms, term, start, room);
    if is_read_earlier(lent, terms, term) {
        renew_term(lent, terms, term, start, room);
    }
}

/// Takes the day into all used terms. The rings of bars have it already; the terms stand for the days before,
/// and then for the days with it. It takes no memory.
pub(crate) fn advance_terms(
    lent: &Lent<'_>,
    terms: &mut [TermCells],
    starts: &mut [StartCells],
    room: &mut Room,
)
    requires placed { (next : FedDay) × (days : List FedDay)
        × IsPlaced lent.now terms.old starts.old next days }
    requires terms { AreTerms (assets_at lent.now) (pipeline_at lent.now) lent.now.bars.now terms.old }
    requires starts { AreStarts (assets_at lent.now) (pipeline_at lent.now) starts.old }
    requires room { IsRoom (assets_at lent.now) (length (pipeline_at lent.now).graph) room.old }
    ensures follow { FollowTerms lent.now terms.old starts.old terms.new starts.new }
    ensures terms { AreTerms (assets_at lent.now) (pipeline_at lent.now) lent.now.bars.now terms.new }
    ensures starts { AreStarts (assets_at lent.now) (pipeline_at lent.now) starts.new }
    ensures rooms { rooms terms.new ≡ rooms terms.old }
    ensures room { IsRoom (assets_at lent.now) (length (pipeline_at lent.now).graph) room.new }
{
    is_lent(lent);
    let graph = lent.checked.graph();
    for k in 0..graph.len() {
        let term = TermId(k as u8);
        if lent.checked.is_used(term) {
            advance_term(lent, terms, term, &mut starts[k], room);
        }
    }
}
