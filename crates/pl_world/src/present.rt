//! How many numbers beside bars a pipeline reads.

ghost use Rattle.std.specs.Prelude.{◌≡◌, ◌*◌, ◌<◌, ◌≤◌, ◌&&◌, false, pos, length, position, sum_by, bytes_eq, IfSome, IfNone};
ghost use Rattle.pl_pipeline.specs.Kind.Kind.{Number};
ghost use Rattle.pl_spec.specs.Limits.{most_assets, most_sessions, most_terms};
ghost use Rattle.pl_spec.specs.Parts.{sid_at};
ghost use Rattle.pl_spec.specs.Rounding.{is_present};
ghost use Rattle.pl_spec.specs.World.{exists, known_number};
ghost use Rattle.pl_terms.specs.Checked.{IsChecked, pipeline_of};
ghost use Rattle.pl_terms.specs.Kinds.{kind_of};
ghost use Rattle.pl_world.specs.Present as spec;
ghost use Rattle.pl_world.specs.Worlds.{world_of, IsMade};

use crate::cell::exists;
use crate::laws::parts_make_a_world;
use crate::parts::number_of;
use crate::world::World;
use pl_fixed::MISSING;
use pl_numbers::Figure;
use pl_terms::{Checked, Node, TermId};
use pl_values::{Family, family_of};

/// Whether the pipeline reads numbers beside bars: whether a term that it uses is one.
pub fn has_numbers(checked: &Checked) -> bool
    ensures { result ≡ spec.has_numbers (pipeline_of checked.now) }
{
    for t in 0..count_terms(checked) {
        if is_number(checked, TermId(t as u8)) {
            return true;
        }
    }
    false
}

/// How many cells of numbers beside bars are present on the sessions `from` to `to`, which count from 0: one
/// for each used term that is a number, each asset, and each session on which the asset exists and has it.
pub fn present_numbers(world: &World, checked: &Checked, from: usize, to: usize) -> u64
    requires made { IsMade world.now }
    requires order { from ≤ to }
    requires within { to < length world.now.sessions.now }
    ensures { result ≡ spec.present_numbers (world_of world.now) (pipeline_of checked.now) from to }
{
    parts_make_a_world(world);
    let mut count = 0;
    for t in 0..count_terms(checked) {
        count += present_in(world, checked, TermId(t as u8), from, to);
    }
    count
}

// How many terms there are.
fn count_terms(checked: &Checked) -> usize
    ensures count { result ≡ length (pipeline_of checked.now).graph }
    ensures long { result ≡ length checked.now.graph }
    ensures few { result ≤ most_terms }
{
    checked.graph().len()
}

// Whether the term is used, and a number beside bars.
fn is_number(checked: &Checked, t: TermId) -> bool
    requires { t.0 < length checked.now.graph }
    ensures { result ≡ spec.is_number_term (pipeline_of checked.now) t.0 }
{
    number_name(checked, t).is_some()
}

// What a used term reads of a number, and the number of the name; `None` for another term.
fn number_name(checked: &Checked, t: TermId) -> Option<(Figure, u32)>
    requires { t.0 < length checked.now.graph }
    ensures some { IfSome result (λ r. spec.IsNumberUnder (pipeline_of checked.now) t.0 r.0 r.1) }
    ensures none { IfNone result (spec.is_number_term (pipeline_of checked.now) t.0 ≡ false) }
    ensures checked { IsChecked (pipeline_of checked.now) }
{
    let node = checked.graph().node(t);
    if checked.is_used(t) {
        name_in(node)
    } else {
        None
    }
}

fn name_in(node: &Node) -> Option<(Figure, u32)>
    ensures some { IfSome result (λ r. kind_of node.now.kind ≡ Number r.0 r.1) }
    ensures none { IfNone result (spec.is_number_kind (kind_of node.now.kind) ≡ false) }
{
    match family_of(&node.kind) {
        Family::Number(figure, name) => Some((figure, name)),
        _ => None,
    }
}

// How many cells of a term are present.
fn present_in(world: &World, checked: &Checked, t: TermId, from: usize, to: usize) -> u64
    requires made { IsMade world.now }
    requires term { t.0 < length checked.now.graph }
    requires order { from ≤ to }
    requires within { to < length world.now.sessions.now }
    requires few { to < most_sessions }
    ensures count { result ≡ spec.present_in (world_of world.now) (pipeline_of checked.now) from to t.0 }
    ensures few { result ≤ most_assets * most_sessions }
{
    match number_name(checked, t) {
        Some((figure, name)) => present_under(world, figure, checked.label_name(name), from, to),
        None => 0,
    }
}

// Those under a name.
fn present_under(world: &World, figure: Figure, name: &[u8], from: usize, to: usize) -> u64
    requires made { IsMade world.now }
    requires order { from ≤ to }
    requires within { to < length world.now.sessions.now }
    requires few { to < most_sessions }
    ensures count { result ≡ sum_by (λ x. spec.known_on (world_of world.now) figure from to name.now x.sid)
        world.now.assets.now }
    ensures few { result ≤ most_assets * most_sessions }
{
    let mut count = 0;
    for col in 0..world.assets.len() {
        count += present_of(world, figure, name, col, from, to);
    }
    count
}

// Those of an asset.
fn present_of(world: &World, figure: Figure, name: &[u8], col: usize, from: usize, to: usize) -> u64
    requires made { IsMade world.now }
    requires col { col < length world.now.assets.now }
    requires order { from ≤ to }
    requires within { to < length world.now.sessions.now }
    requires few { to < most_sessions }
    ensures count { result ≡ spec.known_on (world_of world.now) figure from to name.now
        (sid_at world.now.assets.now col) }
    ensures few { result ≤ most_sessions }
{
    let number = world.numbers.name_of(name);
    let mut count = 0;
    for session in from..to + 1 {
        if has_number(world, figure, name, number, col, session) {
            count += 1;
        }
    }
    count
}

// The asset exists on the session, and has a number under the name.
fn has_number(
    world: &World,
    figure: Figure,
    name: &[u8],
    number: Option<u32>,
    col: usize,
    session: usize,
) -> bool
    requires made { IsMade world.now }
    requires name { number ≡ position (bytes_eq name.now) world.now.numbers.now.names }
    requires col { col < length world.now.assets.now }
    requires session { session < length world.now.sessions.now }
    ensures { result ≡ (exists (world_of world.now) (sid_at world.now.assets.now col) (pos session)
        && is_present (known_number (world_of world.now) figure name.now
        (sid_at world.now.assets.now col) (pos session))) }
{
    exists(world, col, session) && has_cell(world, figure, name, number, col, session)
}

// There is a number, whether the asset exists or not.
fn has_cell(
    world: &World,
    figure: Figure,
    name: &[u8],
    number: Option<u32>,
    col: usize,
    session: usize,
) -> bool
    requires made { IsMade world.now }
    requires name { number ≡ position (bytes_eq name.now) world.now.numbers.now.names }
    requires col { col < length world.now.assets.now }
    requires session { session < length world.now.sessions.now }
    ensures { result ≡ is_present (known_number (world_of world.now) figure name.now
        (sid_at world.now.assets.now col) (pos session)) }
{
    is_present(number_of(world, figure, name, number, col, session))
}

fn is_present(cell: i64) -> bool
    ensures { result ≡ is_present cell }
{
    cell != MISSING
}
