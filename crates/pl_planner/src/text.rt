//! A line for each used term, and one for the whole.

ghost use Rattle.std.specs.Prelude.{◌≡◌, ℕ, ◌<◌, ◌≤◌, ◌++◌, ◌∷◌, [], IfOk, OnOk, codes, decimal, flat_map, length, map, option_map};
ghost use Rattle.std.specs.Fmt.{signed_decimal};
ghost use Rattle.pl_terms.specs.Checked.{pipeline_of};
ghost use Rattle.pl_terms.specs.Nodes.{graph_of, input_of, node_of, number_of};
ghost use Rattle.pl_terms.specs.Uses as pipeline;
ghost use Rattle.pl_planner.specs.Plans as plans;
ghost use Rattle.pl_planner.specs.Cones.{pair_of, pairs_of};
ghost use Rattle.pl_planner.specs.Steady.{AreSteady};
ghost use Rattle.pl_planner.specs.Text.{anew_text, behind_semicolon, depth_behind, depth_text, front_text, input_text, inputs_text, last_line};
ghost use Rattle.pl_planner.specs.Text.{lines_text, number_text, numbers_text, places_text, plan_text, term_line, used_line};

use crate::cones::{ConeTerm, cone_of};
use crate::names::{column_name, kind_name};
use crate::plans::Plan;
use crate::steady::steady_terms;
use itoa::Buffer;
use pl_fixed::Memory;
use pl_terms::{Checked, Input, Node, TermId};
use std::alloc::{AllocError, Global};

fn put(out: &mut Vec<u8>, text: &str) -> Result<(), AllocError>
    ensures { OnOk result (out.new.items ≡ out.old.items ++ text.now) }
{
    out.extend_from_slice(text.as_bytes())?;
    Ok(())
}

fn put_number(out: &mut Vec<u8>, before: &str, number: u64) -> Result<(), AllocError>
    ensures { OnOk result (out.new.items ≡ out.old.items ++ before.now ++ decimal number) }
{
    let mut buffer = Buffer::new();
    put(out, before)?;
    put(out, buffer.format(number))
}

fn put_optional(out: &mut Vec<u8>, before: &str, term: Option<TermId>) -> Result<(), AllocError>
    ensures { OnOk result (out.new.items ≡ out.old.items
        ++ before.now ++ number_text (option_map number_of term)) }
{
    match term {
        Some(t) => put_number(out, before, u64::from(t.0)),
        None => {
            put(out, before)?;
            put(out, "-")
        }
    }
}

fn put_input(out: &mut Vec<u8>, input: Input) -> Result<(), AllocError>
    ensures { OnOk result (out.new.items ≡ out.old.items ++ input_text (input_of input)) }
{
    match input {
        Input::Column(column) => put(out, column_name(column)),
        Input::Term(t) => put_number(out, "", u64::from(t.0)),
    }
}

fn put_further(out: &mut Vec<u8>, inputs: &[Input]) -> Result<(), AllocError>
    ensures { OnOk result (out.new.items ≡ out.old.items
        ++ flat_map behind_semicolon (map input_of inputs.now)) }
{
    match inputs {
        [] => Ok(()),
        [first, rest @ ..] => {
            put(out, ";")?;
            put_input(out, *first)?;
            put_further(out, rest)
        }
    }
}

#[tactic(auto, unfolding(crate::specs::Text::inputs_text))]
fn put_inputs(out: &mut Vec<u8>, inputs: &[Input]) -> Result<(), AllocError>
    ensures { OnOk result (out.new.items ≡ out.old.items ++ inputs_text (map input_of inputs.now)) }
{
    match inputs {
        [] => put(out, "-"),
        [first, rest @ ..] => {
            put_input(out, *first)?;
            put_further(out, rest)
        }
    }
}

#[tactic(auto, unfolding(pl_terms::specs::Nodes::node_of))]
fn put_front(out: &mut Vec<u8>, t: TermId, node: &Node) -> Result<(), AllocError>
    ensures { OnOk result (out.new.items ≡ out.old.items ++ front_text t.0 (node_of node.now)) }
{
    put_number(out, "", u64::from(t.0))?;
    put(out, " ")?;
    put(out, kind_name(&node.kind))?;
    put(out, " inputs=")?;
    put_inputs(out, node.inputs.as_slice())
}

#[tactic(auto, unfolding(pl_terms::specs::Nodes::node_of))]
fn put_places(out: &mut Vec<u8>, node: &Node) -> Result<(), AllocError>
    ensures { OnOk result (out.new.items ≡ out.old.items ++ places_text (node_of node.now)) }
{
    put_number(out, " window=", u64::from(node.window))?;
    put_optional(out, " mask=", node.mask)?;
    put_optional(out, " group=", node.group)
}

fn put_numbers(out: &mut Vec<u8>, extra: usize, uses: usize) -> Result<(), AllocError>
    ensures { OnOk result (out.new.items ≡ out.old.items ++ numbers_text extra uses) }
{
    put_number(out, " extra=", extra as u64)?;
    put_number(out, " uses=", uses as u64)
}

fn put_depth(out: &mut Vec<u8>, before: &str, own: ConeTerm) -> Result<(), AllocError>
    ensures { OnOk result (out.new.items ≡ out.old.items ++ before.now ++ depth_text (pair_of own)) }
{
    put_number(out, before, u64::from(own.term.0))?;
    put_number(out, ":", own.depth as u64)
}

fn put_depths(out: &mut Vec<u8>, cone: &[ConeTerm]) -> Result<(), AllocError>
    ensures { OnOk result (out.new.items ≡ out.old.items ++ flat_map depth_behind (map pair_of cone.now)) }
{
    match cone {
        [] => Ok(()),
        [first, rest @ ..] => {
            put_depth(out, ";", *first)?;
            put_depths(out, rest)
        }
    }
}

// What is computed anew for a term.
#[tactic(auto, unfolding(crate::specs::Text::anew_text, crate::specs::Cones::pairs_of))]
fn put_anew(out: &mut Vec<u8>, cone: &[ConeTerm]) -> Result<(), AllocError>
    ensures { OnOk result (out.new.items ≡ out.old.items ++ anew_text (pairs_of cone.now)) }
{
    match cone {
        [] => Ok(()),
        [first, rest @ ..] => {
            put_depth(out, " anew=", *first)?;
            put_depths(out, rest)
        }
    }
}

#[tactic(auto, unfolding(crate::specs::Text::term_line))]
fn put_line(
    out: &mut Vec<u8>,
    t: TermId,
    node: &Node,
    extra: usize,
    uses: usize,
    cone: &[ConeTerm],
) -> Result<(), AllocError>
    ensures { OnOk result (out.new.items ≡ out.old.items
        ++ term_line t.0 (node_of node.now) extra uses (pairs_of cone.now)) }
{
    put_front(out, t, node)?;
    put_places(out, node)?;
    put_numbers(out, extra, uses)?;
    put_anew(out, cone)?;
    put(out, "\n")
}

fn put_reach(out: &mut Vec<u8>, reach: i64) -> Result<(), AllocError>
    ensures { OnOk result (out.new.items ≡ out.old.items ++ codes "reach=" ++ signed_decimal reach) }
{
    let mut buffer = Buffer::new();
    put(out, "reach=")?;
    put(out, buffer.format(reach))
}

#[tactic(auto, unfolding(crate::specs::Text::last_line))]
fn put_last(out: &mut Vec<u8>, reach: i64, bound: usize) -> Result<(), AllocError>
    ensures { OnOk result (out.new.items ≡ out.old.items ++ last_line reach bound) }
{
    put_reach(out, reach)?;
    put_number(out, " bound=", bound as u64)?;
    put(out, "\n")
}

// The line of a used term; nothing for another.
fn put_term(
    alloc: Global,
    out: &mut Vec<u8>,
    checked: &Checked,
    plan: &Plan,
    steady: &[bool; 256],
    t: TermId,
) -> Result<(), AllocError>
    requires within { t.0 < length checked.now.graph }
    requires same { plans.is_used plan.now t.0 ≡ pipeline.is_used (pipeline_of checked.now) t.0 }
    requires steady { AreSteady (graph_of checked.now.graph) (length checked.now.graph) steady.now }
    ensures { OnOk result (out.new.items ≡ out.old.items
        ++ used_line (pipeline_of checked.now) (plans.extra plan.now) t.0) }
{
    if !plan.is_used(t) {
        return Ok(());
    }
    let cone = cone_of(alloc, checked.graph(), steady, t)?;
    let node = checked.graph().node(t);
    put_line(out, t, node, plan.extra(t), checked.uses(t), &cone.terms)
}

fn put_terms(
    alloc: Global,
    out: &mut Vec<u8>,
    checked: &Checked,
    plan: &Plan,
    steady: &[bool; 256],
) -> Result<(), AllocError>
    requires used { (t : ℕ) → plans.is_used plan.now t ≡ pipeline.is_used (pipeline_of checked.now) t }
    requires steady { AreSteady (graph_of checked.now.graph) (length checked.now.graph) steady.now }
    ensures { OnOk result (out.new.items ≡ out.old.items
        ++ lines_text (pipeline_of checked.now) (plans.extra plan.now)) }
{
    for k in 0..checked.graph().len() {
        put_term(alloc, out, checked, plan, steady, TermId(k as u8))?;
    }
    Ok(())
}

/// The text of a plan: for each used term in ascending number one line, as `4 SimpleMovingAverage
/// inputs=close window=3 mask=2 group=- extra=0 uses=1`, with its number, its kind without the parameters,
/// its inputs joined by `;` (a bar column by its name, a term by its number), its window in sessions, its
/// mask and group, on how many sessions before the range it is computed and how often it is used, and for a
/// window over what moves with the bars ` anew=1:13`: its cone, each term with its depth, joined by `;`; then
/// `reach=R bound=B`. Each line ends with LF. The only error is want of memory.
#[tactic(auto, unfolding(crate::specs::Text::plan_text))]
pub fn plan_text(alloc: Global, checked: &Checked, plan: &Plan) -> Result<Vec<u8>, Memory>
    // The plan is one of this pipeline's.
    requires { (t : ℕ) → plans.is_used plan.now t ≡ pipeline.is_used (pipeline_of checked.now) t }
    ensures { IfOk result (λ text. text.items
        ≡ plan_text (pipeline_of checked.now) (plans.extra plan.now) plan.now.reach plan.now.bound) }
{
    let mut out = Vec::new(alloc);
    let steady = steady_terms(checked.graph());
    put_terms(alloc, &mut out, checked, plan, &steady)?;
    put_last(&mut out, plan.reach(), plan.bound())?;
    Ok(out)
}
