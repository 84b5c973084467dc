//! The value of any term, one cell at a time.

ghost use Rattle.std.specs.Prelude.{◌≡◌, ◌+◌, ◌<◌, ◌≤ℤ◌, IfOk, None, OnOk, Some, length, option_map, pos};
ghost use Rattle.pl_spec.specs.Rounding.{IsCell};
ghost use Rattle.pl_pipeline.specs.Graph.{reach};
ghost use Rattle.pl_spec.specs.Parts.{sid_at};
ghost use Rattle.pl_pipeline.specs.Term.{term_at};
ghost use Rattle.pl_pipeline.specs.Table.{in_array, value_of};
ghost use Rattle.pl_terms.specs.Checked.{pipeline_of};
ghost use Rattle.pl_terms.specs.Kinds.{kind_of};
ghost use Rattle.pl_terms.specs.Sorts.{is_windowed};
ghost use Rattle.pl_terms.specs.Nodes.{graph_of};
ghost use Rattle.pl_cross.specs.Section.{is_section};
ghost use Rattle.pl_values.specs.Families.{is_point};
ghost use Rattle.pl_world.specs.Worlds.{world_of, IsMade};
ghost use Rattle.pl_world.specs.Evaluations.{IsAsked, IsAskedInput, IsAskedOption, HasKind, row_in, optional_row_in};
ghost use Rattle.pl_model.specs.Costs.{cost_in, input_cost_in, window_cost_in, row_cost_in, optional_cost_in};
ghost use Rattle.pl_world.specs.Views.{IsSeenFrom, input_seen_in, window_seen_in, operand_view, window_view};
ghost use Rattle.pl_model.specs.Requests.{IsRequest, IsRequestOf, IsKeptFor, asset_of, asked_cell, asked_cost, given_cost};
ghost use Rattle.pl_model.specs.Gives.{IsCellOf, AreCellsOf, IsRowOf, IsVerdict};

use crate::bars::{Span, bars_before, is_true};
use pl_fixed::{MISSING, Memory, Steps};
use pl_terms::{Checked, Input, Node, TermId, TermKind};
use pl_values::{
    Family, empty_value, family_of, keeps_values, label_test_value, point_value, sids_value,
    window_value,
};
use pl_world::{
    SectionRows, World, exists, input_at, label_cell, number_cell, section_input, section_row,
};
use std::alloc::Global;
use std::sync::ledger::Ledger;

// A term, for the asset in a column on a session, the session from which it is seen where that is a later one
// or the same for a whole window, and where rows are held.
#[derive(Clone, Copy)]
struct Request<'a> {
    alloc: Global,
    world: &'a World<'a>,
    checked: &'a Checked,
    term: TermId,
    col: usize,
    session: usize,
    view: Option<usize>,
}

/// The value of a term for the asset in column `col` on a session, by itself and plainly: by recursion on
/// the term's number, each cell computed anew wherever it is read. It is a cell in millionths, a filter's 1
/// or 0, a numbered classifier's number, or the code of a label; where the asset does not exist or does not
/// pass the term's mask, `MISSING`, and 0 for a filter. Bars are seen as of the session. The term's reach
/// at the session may not be below 0. It is for single cells, and for tests: its steps grow with the windows
/// of all terms that the term is of. The only error is want of memory.
pub fn cell_now<L: Ledger>(
    alloc: Global,
    world: &World,
    checked: &Checked,
    t: TermId,
    col: usize,
    session: usize,
    steps: &mut Steps<L>,
) -> Result<i64, Memory>
    requires made { IsMade world.now }
    requires term { t.0 < length checked.now.graph }
    requires col { col < length world.now.assets.now }
    requires session { session < length world.now.sessions.now }
    requires reach { pos 0 ≤ℤ reach world.now.sessions.now
        (term_at (graph_of checked.now.graph) t.0) (pos session) }
    // The value as arrays hold it: a label as its code.
    ensures value { IfOk result (λ x. x ≡ in_array (world_of world.now).texts
        (value_of (world_of world.now) (pipeline_of checked.now) t.0
        (sid_at world.now.assets.now col) (pos session))) }
    ensures cell { IfOk result IsCell }
    // One step for each session of a window of bars and adjustment that acts on it, in every evaluation.
    ensures cost { OnOk result (steps.new ≡ steps.old
        + cost_in world.now checked.now t.0 None (sid_at world.now.assets.now col) session) }
{
    let _sessions = world.sessions.len();
    let _graph = checked.graph();
    let ask = Request {
        alloc,
        world,
        checked,
        term: t,
        col,
        session,
        view: None,
    };
    cell(ask, steps)
}

#[cycle(evaluation)]
fn cell<L: Ledger>(ask: Request, steps: &mut Steps<L>) -> Result<i64, Memory>
    requires asked { IsRequest ask }
    ensures { IfOk result (IsCellOf (asked_cell ask.entry) (asked_cost ask.entry) steps.old steps.new) }
{
    let graph = ask.checked.graph();
    let node = graph.node(ask.term);
    let kept = is_kept(ask, node, steps)?;
    if kept {
        given(ask, node, steps)
    } else {
        Ok(empty_value(graph, ask.term))
    }
}

// Whether the asset exists and passes the term's mask.
#[cycle(evaluation)]
fn is_kept<L: Ledger>(ask: Request, node: &Node, steps: &mut Steps<L>) -> Result<bool, Memory>
    requires asked { IsRequestOf ask node.now }
    ensures { IfOk result (IsVerdict ask.entry node.now steps.old steps.new) }
{
    if !exists(ask.world, ask.col, ask.session) {
        return Ok(false);
    }
    match node.mask {
        None => Ok(true),
        Some(mask) => {
            let own = Request {
                term: mask,
                view: None,
                ..ask
            };
            let flag = cell(own, steps)?;
            Ok(is_true(flag))
        }
    }
}

// The session from which a formula sees its windows.
fn window_view(kind: &TermKind, view: Option<usize>, session: usize) -> usize
    ensures { result ≡ window_view (kind_of kind.now) view session }
{
    if keeps_values(kind) {
        session
    } else {
        view.unwrap_or(session)
    }
}

// From where an operation sees what it is of.
fn operand_view(kind: &TermKind, view: Option<usize>) -> Option<usize>
    ensures { result ≡ operand_view (kind_of kind.now) view }
{
    if keeps_values(kind) { None } else { view }
}

// What the kind gives where the asset is kept.
#[cycle(evaluation)]
fn given<L: Ledger>(ask: Request, node: &Node, steps: &mut Steps<L>) -> Result<i64, Memory>
    requires asked { IsRequestOf ask node.now }
    requires kept { IsKeptFor ask }
    ensures { IfOk result
        (IsCellOf (asked_cell ask.entry) (given_cost ask.entry node.now) steps.old steps.new) }
{
    let world = ask.world;
    let own = Request { view: None, ..ask };
    match family_of(&node.kind) {
        Family::Constant(value) => Ok(value),
        Family::Label(name) => Ok(label_cell(world, ask.checked, name, ask.col, ask.session)),
        Family::Number(figure, name) => {
            let checked = ask.checked;
            Ok(number_cell(world, checked, figure, name, ask.col, ask.session))
        }
        Family::Sids => Ok(sids_value(&node.kind, world.assets.sid(ask.col))),
        Family::Window => window_cell(ask, node, steps),
        Family::Point => point_cell(ask, node, steps),
        Family::LabelTest => {
            let _rows = world.labels.len();
            let input = input_at(node, 0);
            let code = input_cell(own, input, ask.session, steps)?;
            Ok(label_test_value(&node.kind, world.labels, code))
        }
        Family::Section => section_cell(ask, node, steps),
        Family::Downsample(frequency) => {
            let start = world.sessions.period_start(frequency, ask.session);
            let input = input_at(node, 0);
            input_cell(own, input, start, steps)
        }
    }
}

#[cycle(evaluation)]
fn window_cell<L: Ledger>(ask: Request, node: &Node, steps: &mut Steps<L>) -> Result<i64, Memory>
    requires asked { IsRequestOf ask node.now }
    requires kept { IsKeptFor ask }
    requires kind { HasKind ask.checked.now ask.term.0 is_windowed }
    ensures { IfOk result
        (IsCellOf (asked_cell ask.entry) (given_cost ask.entry node.now) steps.old steps.new) }
{
    let size = node.window as usize;
    let from = window_view(&node.kind, ask.view, ask.session);
    let seen = Request {
        view: Some(from),
        ..ask
    };
    let first = input_at(node, 0);
    let a = input_window(seen, first, size, steps)?;
    let second = input_at(node, 1);
    let b = input_window(seen, second, size, steps)?;
    let third = input_at(node, 2);
    let c = input_window(seen, third, size, steps)?;
    Ok(window_value(&node.kind, &a, &b, &c))
}

#[cycle(evaluation)]
fn point_cell<L: Ledger>(ask: Request, node: &Node, steps: &mut Steps<L>) -> Result<i64, Memory>
    requires asked { IsRequestOf ask node.now }
    requires kept { IsKeptFor ask }
    requires kind { HasKind ask.checked.now ask.term.0 is_point }
    ensures { IfOk result
        (IsCellOf (asked_cell ask.entry) (given_cost ask.entry node.now) steps.old steps.new) }
{
    let view = operand_view(&node.kind, ask.view);
    let seen = Request { view, ..ask };
    let first = input_at(node, 0);
    let x = input_cell(seen, first, ask.session, steps)?;
    let second = input_at(node, 1);
    let y = input_cell(seen, second, ask.session, steps)?;
    let third = input_at(node, 2);
    let z = input_cell(seen, third, ask.session, steps)?;
    Ok(point_value(&node.kind, x, y, z))
}

#[cycle(evaluation)]
fn section_cell<L: Ledger>(ask: Request, node: &Node, steps: &mut Steps<L>) -> Result<i64, Memory>
    requires asked { IsRequestOf ask node.now }
    requires kind { HasKind ask.checked.now ask.term.0 is_section }
    ensures { IfOk result
        (IsCellOf (asked_cell ask.entry) (given_cost ask.entry node.now) steps.old steps.new) }
{
    let input = section_input(ask.checked, ask.term);
    let values = term_row(ask, input, steps)?;
    let mask = optional_row(ask, node.mask, steps)?;
    let groups = optional_row(ask, node.group, steps)?;
    let rows = SectionRows {
        values: &values,
        mask: &mask,
        groups: &groups,
    };
    let row = section_row(
        ask.alloc,
        ask.world,
        ask.checked,
        ask.term,
        ask.session,
        &rows,
    )?;
    Ok(row[ask.col])
}

// The window of an input as it is seen, oldest first; none where there is no input.
#[cycle(evaluation)]
fn input_window<L: Ledger>(
    ask: Request,
    input: Option<Input>,
    size: usize,
    steps: &mut Steps<L>,
) -> Result<Vec<i64>, Memory>
    requires asked { IsRequest ask }
    requires input { IsAskedInput ask.world.now ask.checked.now input size ask.session }
    ensures { IfOk result (λ v. AreCellsOf
        (window_seen_in ask.entry.world.now ask.entry.checked.now size input ask.entry.view
        (asset_of ask.entry) ask.entry.session)
        (window_cost_in ask.entry.world.now ask.entry.checked.now size input ask.entry.view
        (asset_of ask.entry) ask.entry.session)
        steps.old steps.new v.items) }
{
    match input {
        None => Ok(Vec::new(ask.alloc)),
        Some(Input::Column(column)) => bars_before(
            ask.alloc,
            ask.world,
            column,
            Span {
                size,
                session: ask.session,
                view: ask.view.unwrap_or(ask.session),
            },
            ask.col,
            steps,
        ),
        Some(Input::Term(u)) => cells_up_to(ask, u, size, steps),
    }
}

// The cells of a term on the sessions up to one, as they are seen.
#[cycle(evaluation)]
fn cells_up_to<L: Ledger>(
    ask: Request,
    u: TermId,
    size: usize,
    steps: &mut Steps<L>,
) -> Result<Vec<i64>, Memory>
    requires asked { IsRequest ask }
    requires input { IsAskedInput ask.world.now ask.checked.now (Some (Input.Term u)) size ask.session }
    ensures { IfOk result (λ v. AreCellsOf
        (window_seen_in ask.entry.world.now ask.entry.checked.now size (Some (Input.Term u)) ask.entry.view
        (asset_of ask.entry) ask.entry.session)
        (window_cost_in ask.entry.world.now ask.entry.checked.now size (Some (Input.Term u)) ask.entry.view
        (asset_of ask.entry) ask.entry.session)
        steps.old steps.new v.items) }
{
    let _sessions = ask.world.sessions.len();
    let mut cells = Vec::new(ask.alloc);
    for session in ask.session + 1 - size..ask.session + 1 {
        let at = Request {
            term: u,
            session,
            ..ask
        };
        cells.push(cell(at, steps)?)?;
    }
    Ok(cells)
}

// The value of an input on a session, as it is seen; of a bar column there is none.
#[cycle(evaluation)]
fn input_cell<L: Ledger>(
    ask: Request,
    input: Option<Input>,
    session: usize,
    steps: &mut Steps<L>,
) -> Result<i64, Memory>
    requires asked { IsRequest ask }
    requires input { IsAskedInput ask.world.now ask.checked.now input 1 session }
    requires seen { IsSeenFrom ask.world.now ask.view session }
    ensures { IfOk result (IsCellOf
        (input_seen_in ask.entry.world.now ask.entry.checked.now input ask.entry.view
        (asset_of ask.entry) session)
        (input_cost_in ask.entry.world.now ask.entry.checked.now input ask.entry.view
        (asset_of ask.entry) session)
        steps.old steps.new) }
{
    match input {
        Some(Input::Term(u)) => {
            let at = Request {
                term: u,
                session,
                ..ask
            };
            cell(at, steps)
        }
        _ => Ok(MISSING),
    }
}

// The cells of a term for all assets, each from its own session.
#[cycle(evaluation)]
fn term_row<L: Ledger>(ask: Request, u: TermId, steps: &mut Steps<L>) -> Result<Vec<i64>, Memory>
    requires asked { IsRequest ask }
    requires term { IsAsked ask.world.now ask.checked.now u.0 ask.session }
    ensures { IfOk result (λ v. AreCellsOf
        (row_in ask.entry.world.now ask.entry.checked.now u.0 ask.entry.session)
        (row_cost_in ask.entry.world.now ask.entry.checked.now u.0 ask.entry.session)
        steps.old steps.new v.items) }
{
    let mut row = Vec::new(ask.alloc);
    for col in 0..ask.world.assets.len() {
        let at = Request {
            term: u,
            col,
            view: None,
            ..ask
        };
        row.push(cell(at, steps)?)?;
    }
    Ok(row)
}

// The cells of a mask or a group for all assets.
#[cycle(evaluation)]
fn optional_row<L: Ledger>(
    ask: Request,
    u: Option<TermId>,
    steps: &mut Steps<L>,
) -> Result<Option<Vec<i64>>, Memory>
    requires asked { IsRequest ask }
    requires term { IsAskedOption ask.world.now ask.checked.now u ask.session }
    ensures { IfOk result (λ o. IsRowOf
        (optional_row_in ask.entry.world.now ask.entry.checked.now u ask.entry.session)
        (optional_cost_in ask.entry.world.now ask.entry.checked.now u ask.entry.session) steps.old steps.new
        (option_map (λ v. v.items) o)) }
{
    match u {
        Some(u) => Ok(Some(term_row(ask, u, steps)?)),
        None => Ok(None),
    }
}
