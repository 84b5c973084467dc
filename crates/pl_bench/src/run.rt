//! The run, and the line of its numbers.
ghost use Rattle.std.specs.Prelude.{◌≡◌, ◌≤◌, ◌+◌, ◌⊎◌, ℕ, IfOk, OnOk, OnErr, IsErrOf};
ghost use Rattle.pl_spec.specs.Limits.{most_chunk};
ghost use Rattle.pl_outside.specs.Taken.{Writes};
ghost use Rattle.pl_terms.specs.Checked.{pipeline_of};
ghost use Rattle.pl_world.specs.Worlds.{owned_world, IsOwnedMade};
ghost use Rattle.pl_bench.specs.StatedWorld.{stated_days, stated_world};
ghost use Rattle.pl_bench.specs.Pipeline.{bench_pipeline};
ghost use Rattle.pl_bench.specs.Numbers.{AreNumbers, TakesSteps, bench_line};

use crate::pipeline::{make_pipeline, make_plan};
use crate::world::make_world;
use pl_fixed::{Memory, Steps};
use pl_outside::{NullSink, Sink};
use pl_runner::{RunError, run_table};
use pl_spec::Format;
use pl_table::{Numbers, write_numbers};
use pl_terms::Checked;
use pl_world::OwnedWorld;
use std::alloc::Global;
use std::sync::ledger::Ledger;

/// Runs the pipeline over the stated world of the number, `chunk` sessions at a time, and writes the numbers
/// of that run, as `rows=R cells=C peak=P bound=B` and a line end. The error is that memory ran out, before
/// anything was written, or that the sink counted a fault. The run is this project's own.
pub fn bench<O: Sink, L: Ledger>(
    alloc: Global,
    number: u32,
    chunk: usize,
    out: &mut O,
    steps: &mut Steps<L>,
) -> Result<(), RunError>
    requires some { 1 ≤ chunk }
    requires most { chunk ≤ most_chunk }
    // Where memory ran out nothing was written, and no step is counted.
    ensures writes { IsErrOf result RunError.Memory
        ⊎ Writes O.taken O.faults O.sound O.room out.old out.new (bench_line number) result }
    ensures memory { IsErrOf result RunError.Memory → (out.new ≡ out.old) × (steps.new ≡ steps.old) }
    ensures cost { IsErrOf result RunError.Memory ⊎ TakesSteps number chunk (λ n. steps.new ≡ steps.old + n) }
{
    let numbers = run(alloc, number, chunk, steps)?;
    match write_numbers(out, numbers) {
        Ok(()) => Ok(()),
        Err(_) => Err(RunError::WriteFault),
    }
}

// Runs the pipeline; its table is let go.
fn run<L: Ledger>(
    alloc: Global,
    number: u32,
    chunk: usize,
    steps: &mut Steps<L>,
) -> Result<Numbers, Memory>
    requires some { 1 ≤ chunk }
    requires most { chunk ≤ most_chunk }
    ensures numbers { IfOk result (AreNumbers number) }
    ensures cost { OnOk result (TakesSteps number chunk (λ n. steps.new ≡ steps.old + n)) }
    ensures memory { OnErr result (steps.new ≡ steps.old) }
{
    let checked = make_pipeline(alloc)?;
    let stated = make_world(alloc, number)?;
    run_over(alloc, &checked, &stated, chunk, steps)
}

// Runs it over a world that is a stated one.
fn run_over<L: Ledger>(
    alloc: Global,
    checked: &Checked,
    stated: &OwnedWorld,
    chunk: usize,
    steps: &mut Steps<L>,
) -> Result<Numbers, Memory>
    requires some { 1 ≤ chunk }
    requires most { chunk ≤ most_chunk }
    requires checked { pipeline_of checked.now ≡ bench_pipeline }
    requires sessions { stated.now.sessions ≡ stated_days }
    requires made { IsOwnedMade stated.now }
    ensures numbers { (number : ℕ) → owned_world stated.now ≡ stated_world number
        → IfOk result (AreNumbers number) }
    ensures cost { (number : ℕ) → owned_world stated.now ≡ stated_world number
        → OnOk result (TakesSteps number chunk (λ n. steps.new ≡ steps.old + n)) }
    ensures memory { OnErr result (steps.new ≡ steps.old) }
{
    let world = stated.world();
    let plan = make_plan(alloc, checked, world.sessions)?;
    let mut sink = NullSink;
    match run_table(
        alloc,
        &world,
        checked,
        &plan,
        chunk,
        Format::Csv,
        &mut sink,
        steps,
    ) {
        Ok(report) => Ok(Numbers {
            rows: report.rows,
            cells: report.cells,
            peak: report.peak,
            bound: plan.bound(),
        }),
        Err(RunError::Memory) => Err(Memory),
        // this sink never fails
        Err(RunError::WriteFault) => unreachable!(),
    }
}
