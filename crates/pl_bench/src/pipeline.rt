//! The pipeline that is run, and its plan.
ghost use Rattle.std.specs.Prelude.{◌≡◌, IfOk};
ghost use Rattle.pl_syntax.specs.Scripts.{parsed};
ghost use Rattle.pl_terms.specs.Checked.{pipeline_of};
ghost use Rattle.pl_planner.specs.declared.plans.PlanError.TheVariants as PlanError;
ghost use Rattle.pl_bench.specs.StatedWorld.{stated_days};
ghost use Rattle.pl_syntax.specs.declared.error.SyntaxError.TheVariants as SyntaxError;
ghost use Rattle.pl_bench.specs.Pipeline.{bench_script, bench_pipeline};
ghost use Rattle.pl_bench.specs.Plan.{IsBenchPlan};

use pl_calendar::Sessions;
use pl_check::{CheckError, check};
use pl_fixed::Memory;
use pl_planner::{Plan, PlanError, plan};
use pl_syntax::{Script, SyntaxError, parse};
use pl_terms::Checked;
use std::alloc::Global;

/// The pipeline file: the return of 252 sessions, and its rank in its sector among the 100 assets that are
/// traded most.
pub const PIPELINE: &[u8] = b"pipeline 1;\n\
let liquid = AverageDollarVolume(20).top(100);\n\
let momentum = Returns(close, 252);\n\
column momentum = momentum;\n\
column score = momentum.rank(mask=liquid, groupby=label(\"sector\"));\n\
screen liquid;\n";

/// The first session that is computed.
const FROM: usize = 252;

/// The last one.
const TO: usize = 599;

/// The pipeline that the file means.
pub(crate) fn make_pipeline(alloc: Global) -> Result<Checked, Memory>
    ensures { IfOk result (λ checked. pipeline_of checked ≡ bench_pipeline) }
{
    let script = read_script(alloc)?;
    match check(alloc, &script) {
        Ok(checked) => Ok(checked),
        Err(CheckError::Memory) => Err(Memory),
        // the script keeps the rules
        Err(CheckError::Fault { .. }) => unreachable!(),
    }
}

fn read_script(alloc: Global) -> Result<Script, Memory>
    ensures { IfOk result (λ script. parsed script ≡ bench_script) }
{
    match parse(alloc, PIPELINE) {
        Ok(script) => Ok(script),
        Err(error) => Err(parser_memory(error)),
    }
}

// The file is in the language, so that an error of its parser is want of memory.
fn parser_memory(error: SyntaxError) -> Memory
    requires { error ≡ SyntaxError.Memory }
{
    match error {
        SyntaxError::Memory => Memory,
        _ => unreachable!(),
    }
}

/// Its plan over the sessions of the stated world.
pub(crate) fn make_plan(
    alloc: Global,
    checked: &Checked,
    sessions: &Sessions,
) -> Result<Plan, Memory>
    requires checked { pipeline_of checked.now ≡ bench_pipeline }
    requires sessions { sessions.now ≡ stated_days }
    ensures { IfOk result IsBenchPlan }
{
    match plan(alloc, checked, sessions, FROM, TO) {
        Ok(plan) => Ok(plan),
        Err(error) => Err(planner_memory(error)),
    }
}

// The first session is late enough, and no term is read over a window, so that an error of the planner is
// want of memory.
fn planner_memory(error: PlanError) -> Memory
    requires { error ≡ PlanError.Memory }
{
    match error {
        PlanError::Memory => Memory,
        _ => unreachable!(),
    }
}
