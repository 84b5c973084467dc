//! What is stated of the inputs of a term.
ghost use Rattle.std.specs.Prelude.{◌≡◌, ◌∷◌, [], ◌<◌, All, IfOk, length, option_map, pos, Some};
ghost use Rattle.pl_spec.specs.Rounding.{IsCell};
ghost use Rattle.pl_terms.specs.Nodes.{input_of, number_of};
ghost use Rattle.pl_pipeline.specs.Value.{From};
ghost use Rattle.pl_terms.specs.Checked.{pipeline_of};
ghost use Rattle.pl_derivation.specs.Facts.{facts_now, number_facts, told_fact, window_facts};
ghost use Rattle.pl_derivation.specs.Facts.Fact.{TermValue};
ghost use Rattle.pl_world.specs.Views.{input_seen_in, view_at, window_seen_in};
ghost use Rattle.pl_explain.specs.Given.{given, mask_passes, seen_value_in, sid_in, value_in, IsAskedAt, IsGiven};
ghost use Rattle.pl_explain.specs.Reading.{IsInGraph};

use crate::basis::Basis;
use crate::fact::{Fact, end_of, fact_at, told_by};
use crate::views::{is_steady, is_steady_input};
use pl_fixed::{MISSING, Memory};
use pl_terms::{Input, TermId};
use std::alloc::Global;

/// What is stated of a term for an asset on a session.
pub(crate) fn term_stated(basis: &Basis, t: TermId, col: usize, session: usize) -> Option<i64>
    requires { IsAskedAt basis.now col session }
    ensures { IsGiven IsCell basis.now.stated.now (TermValue t.0 (sid_in basis.now col) (pos session) ∷ [])
        (value_in basis.now t.0 col session) result }
{
    basis.stated.number(Fact::TermValue {
        term: t.0,
        sid: basis.world.assets.sid(col),
        session: session as u32,
    })
}

// What is stated of a term as it is seen.
fn told_stated(
    basis: &Basis,
    t: TermId,
    col: usize,
    session: usize,
    view: Option<u32>,
) -> Option<i64>
    requires at { IsAskedAt basis.now col session }
    requires term { t.0 < length basis.now.checked.now.graph }
    ensures { IsGiven IsCell basis.now.stated.now (told_fact (pipeline_of basis.now.checked.now).graph t.0
        (sid_in basis.now col) (pos session) (view_at view) ∷ [])
        (seen_value_in basis.now t.0 col session view) result }
{
    match view {
        None => term_stated(basis, t, col, session),
        Some(view) => {
            let steady = is_steady(basis.checked, t);
            let sid = basis.world.assets.sid(col);
            basis
                .stated
                .number(told_by(steady, t.0, sid, session as u32, view))
        }
    }
}

/// What is stated of an input on the session, as it is seen; a bar column has nothing there.
pub(crate) fn input_stated(
    basis: &Basis,
    input: Option<Input>,
    col: usize,
    session: usize,
    view: Option<u32>,
) -> Option<i64>
    requires at { IsAskedAt basis.now col session }
    requires input { IsInGraph basis.now.checked.now input }
    ensures { IsGiven IsCell basis.now.stated.now (facts_now (pipeline_of basis.now.checked.now).graph
        (view_at view) (sid_in basis.now col) (pos session) (option_map input_of input))
        (input_seen_in basis.now.world basis.now.checked.now input view (sid_in basis.now col) session)
        result }
{
    match input {
        Some(Input::Term(u)) => told_stated(basis, u, col, session, view),
        _ => Some(MISSING),
    }
}

/// Whether the asset passes the mask on the session, by the mask's number there; without a mask it does.
/// `None` where that number is not there.
pub(crate) fn mask_stated(
    basis: &Basis,
    mask: Option<TermId>,
    col: usize,
    session: usize,
) -> Option<bool>
    requires { IsAskedAt basis.now col session }
    ensures { result ≡ given basis.now.stated.now
        (number_facts (sid_in basis.now col) (pos session) (option_map number_of mask))
        (mask_passes basis.now.world basis.now.checked.now mask (sid_in basis.now col) session) }
{
    match mask {
        None => Some(true),
        Some(m) => Some(term_stated(basis, m, col, session)? == 1),
    }
}

/// The window of an input as it is seen on a session, oldest first, by what is stated of it; empty where there
/// is no input.
pub(crate) fn window_stated(
    alloc: Global,
    basis: &Basis,
    input: Option<Input>,
    size: usize,
    col: usize,
    session: usize,
    view: u32,
) -> Result<Option<Vec<i64>>, Memory>
    requires at { IsAskedAt basis.now col session }
    requires input { IsInGraph basis.now.checked.now input }
    ensures { IfOk result (λ o. IsGiven (All IsCell) basis.now.stated.now
        (window_facts (pipeline_of basis.now.checked.now).graph (From (pos view)) size (sid_in basis.now col)
        (pos session) (option_map input_of input))
        (window_seen_in basis.now.world basis.now.checked.now size input (Some view)
        (sid_in basis.now col) session)
        (option_map (λ v. v.items) o)) }
{
    match input {
        None => Ok(Some(Vec::new(alloc))),
        Some(input) => run_stated(alloc, basis, input, size, col, session, view),
    }
}

// What is stated of the bars before the session, or of a term on the sessions up to it.
fn run_stated(
    alloc: Global,
    basis: &Basis,
    input: Input,
    size: usize,
    col: usize,
    session: usize,
    view: u32,
) -> Result<Option<Vec<i64>>, Memory>
    requires at { IsAskedAt basis.now col session }
    requires input { IsInGraph basis.now.checked.now (Some input) }
    ensures { IfOk result (λ o. IsGiven (All IsCell) basis.now.stated.now
        (window_facts (pipeline_of basis.now.checked.now).graph (From (pos view)) size (sid_in basis.now col)
        (pos session) (Some (input_of input)))
        (window_seen_in basis.now.world basis.now.checked.now size (Some input) (Some view)
        (sid_in basis.now col) session)
        (option_map (λ v. v.items) o)) }
{
    let end = end_of(input, session as u32);
    if size > end {
        return Ok(None);
    }
    let sid = basis.world.assets.sid(col);
    let steady = is_steady_input(basis.checked, input);
    let mut cells = Vec::new(alloc);
    for earlier in end - size..end {
        match basis
            .stated
            .number(fact_at(input, steady, sid, earlier as u32, view))
        {
            None => return Ok(None),
            Some(cell) => cells.push(cell)?,
        }
    }
    Ok(Some(cells))
}
