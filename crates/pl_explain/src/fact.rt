//! Facts, and the keys by which they are found.

ghost use Rattle.std.specs.Prelude.{◌≡◌, ◌+◌, ◌<◌, ◌≤◌, pos, Some};
ghost use Rattle.pl_spec.specs.World.{column_number};
ghost use Rattle.pl_terms.specs.Nodes.{input_of};
ghost use Rattle.pl_derivation.specs.Facts.{value_fact};
ghost use Rattle.pl_world.specs.Views.{view_at};
ghost use Rattle.pl_explain.specs.Keys.{fact_key, fact_of, packed};
ghost use Rattle.pl_explain.specs.Reading.{end_of, fact_at, told_by};

use pl_spec::Column;
use pl_terms::Input;

/// What a line of a derivation is about: the bar of a session of an asset as it is seen on a later session,
/// the value of a term for an asset on a session, or that value as it is seen on a later session. Sessions are
/// counted from 0.
#[derive(Clone, Copy)]
pub(crate) enum Fact {
    Seen {
        column: Column,
        sid: u32,
        bar: u32,
        session: u32,
    },
    TermValue {
        term: u8,
        sid: u32,
        session: u32,
    },
    SeenValue {
        term: u8,
        sid: u32,
        session: u32,
        view: u32,
    },
}

fn column_number(column: Column) -> u32
    ensures number { result ≡ column_number column }
    ensures small { result < 5 }
{
    match column {
        Column::OpenPrice => 0,
        Column::High => 1,
        Column::Low => 2,
        Column::Close => 3,
        Column::Volume => 4,
    }
}

// Four numbers as one, each with 32 bits of its own.
#[tactic(auto, unfolding(crate::specs::Keys::packed))]
fn packed(kind: u32, sid: u32, bar: u32, session: u32) -> u128
    ensures { result ≡ packed kind sid bar session }
{
    const WIDE: u128 = 1 << 32;
    ((kind as u128 * WIDE + sid as u128) * WIDE + bar as u128) * WIDE + session as u128
}

/// The key of a fact, which no other fact has.
pub(crate) fn key(fact: Fact) -> u128
    ensures { fact_key (fact_of fact) ≡ Some result }
{
    match fact {
        Fact::Seen {
            column,
            sid,
            bar,
            session,
        } => packed(column_number(column), sid, bar, session),
        Fact::TermValue { term, sid, session } => packed(5 + 2 * term as u32, sid, 0, session),
        Fact::SeenValue {
            term,
            sid,
            session,
            view,
        } => packed(6 + 2 * term as u32, sid, session, view),
    }
}

/// The value of a term for an asset on a session, as it is seen from a later session where it is from one.
pub(crate) fn value_fact(term: u8, sid: u32, session: u32, view: Option<u32>) -> Fact
    ensures { fact_of result ≡ value_fact term sid (pos session) (view_at view) }
{
    match view {
        None => Fact::TermValue { term, sid, session },
        Some(view) => Fact::SeenValue {
            term,
            sid,
            session,
            view,
        },
    }
}

/// The value of a term on a session as it is seen on that one or a later one. It is told as the session's own
/// where the two are one, or the term is steady.
pub(crate) fn told_by(steady: bool, term: u8, sid: u32, session: u32, view: u32) -> Fact
    ensures { fact_of result ≡ told_by steady term sid (pos session) (pos view) }
{
    if steady || session == view {
        value_fact(term, sid, session, None)
    } else {
        value_fact(term, sid, session, Some(view))
    }
}

/// What a window over an input has of a session, where it is seen on another.
pub(crate) fn fact_at(input: Input, steady: bool, sid: u32, at: u32, view: u32) -> Fact
    ensures { fact_of result ≡ fact_at steady (input_of input) sid (pos at) (pos view) }
{
    match input {
        Input::Column(column) => Fact::Seen {
            column,
            sid,
            bar: at,
            session: view,
        },
        Input::Term(u) => told_by(steady, u.0, sid, at, view),
    }
}

/// The session before which a window over an input ends that is read on a session: it has the bars before
/// that one, or the values up to it.
pub(crate) fn end_of(input: Input, session: u32) -> usize
    ensures end { result ≡ end_of (input_of input) session }
    ensures near { result ≤ session + 1 }
{
    match input {
        Input::Column(_) => session as usize,
        Input::Term(_) => session as usize + 1,
    }
}
