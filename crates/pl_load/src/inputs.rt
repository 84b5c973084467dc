//! The files of the shelf. Each stage reads one file to its end and judges it, and ends as its steps say.

ghost use Rattle.std.specs.Prelude.{◌≡◌, ◌≤◌, ◌<◌, [], ◌∷◌, Some, length, All, IfOk, option_map};
ghost use Rattle.pl_payouts.specs.Payouts.{AreKnown};
ghost use Rattle.pl_syntax.specs.Scripts.{parsed};
ghost use Rattle.pl_terms.specs.Checked.{pipeline_of};
ghost use Rattle.pl_words.specs.declared.request.InputFile.TheVariants as files;
ghost use Rattle.pl_words.specs.Request.{numbers_named};
ghost use Rattle.pl_words.specs.Views.{world_names_of};
ghost use Rattle.pl_load.specs.Held.{script_in, pipeline_in, days_in, assets_in, labels_asked, numbers_asked, results_asked, bars_in, revised_asked, payouts_in, derivation_in};
ghost use Rattle.pl_load.specs.Work.{cap_of, read_step, syntax_step, pipeline_steps, evaluated_steps, sessions_rule, assets_rule, labels_steps, numbers_steps, results_steps, bars_rule, revisions_steps, payouts_rule, derivation_step};
ghost use Rattle.pl_load.specs.Views.{shelf_change};
ghost use Rattle.pl_load.specs.Reads.{IsRead, IsPassedOn, no_rule};

use crate::errors::numbers_fault;
use crate::fault::Fault;
use crate::limits::{cap_of, limit_of};
use crate::numbered::judge_numbers;
use pl_adjust::Adjustments;
use pl_assets::{Assets, Labels};
use pl_bars::{Bars, BarsReader};
use pl_calendar::Sessions;
use pl_check::check;
use pl_derivation::{Derivation, read_lines};
use pl_numbers::Numbers;
use pl_outside::{ReadError, Shelf, Taker, read_file, read_pieces};
use pl_payouts::Payouts;
use pl_syntax::{Script, parse};
use pl_terms::Checked;
use pl_words::{InputFile, WorldNames};
use std::alloc::Global;

// The whole bytes of a file.
fn read_input<S: Shelf>(
    alloc: Global,
    shelf: &mut S,
    name: &str,
    file: InputFile,
) -> Result<Vec<u8>, Fault>
    ensures read { IsRead (shelf_change S.Shelf shelf.old shelf.new)
        (Some name.now)
        (λ held. read_step file no_rule held ∷ [])
        (λ held bytes. held ≡ Some bytes.items) result }
    ensures within { IfOk result (λ bytes. length bytes.items ≤ cap_of file) }
{
    match read_file(alloc, shelf, name, cap_of(file)) {
        Ok(bytes) => Ok(bytes),
        Err(ReadError::Failed) => Err(Fault::Unread(file)),
        Err(ReadError::TooLong) => Err(Fault::Passed(limit_of(file))),
        Err(ReadError::Memory) => Err(Fault::Memory),
    }
}

// The whole bytes of a file, handed on piece by piece.
fn pass_input<S: Shelf, T: Taker>(
    shelf: &mut S,
    name: &str,
    file: InputFile,
    into: &mut T,
) -> Result<(), Fault>
    ensures { IsRead (shelf_change S.Shelf shelf.old shelf.new)
        (Some name.now)
        (λ held. read_step file no_rule held ∷ [])
        (λ held _. IsPassedOn (λ bytes. T.after into.old bytes into.new) (cap_of file) held) result }
{
    match read_pieces(shelf, name, cap_of(file), into) {
        Ok(()) => Ok(()),
        Err(ReadError::Failed) => Err(Fault::Unread(file)),
        Err(ReadError::TooLong) => Err(Fault::Passed(limit_of(file))),
        Err(ReadError::Memory) => Err(Fault::Memory),
    }
}

/// The script of the pipeline file of that name. The fault is that the shelf refused it, it is too long, or
/// it has a fault of syntax; or want of memory.
pub fn read_script<S: Shelf>(alloc: Global, shelf: &mut S, name: &str) -> Result<Script, Fault>
    ensures { IsRead (shelf_change S.Shelf shelf.old shelf.new)
        (Some name.now)
        (λ held. syntax_step held ∷ [])
        (λ held script. script_in held ≡ parsed script) result }
{
    let bytes = read_input(alloc, shelf, name, InputFile::Pipeline)?;
    Ok(parse(alloc, &bytes)?)
}

/// The pipeline that the pipeline file of that name means. The fault is that the shelf refused it, it is too
/// long, has a fault of syntax, or breaks a rule of the language; or want of memory.
pub fn read_checked<S: Shelf>(alloc: Global, shelf: &mut S, name: &str) -> Result<Checked, Fault>
    ensures { IsRead (shelf_change S.Shelf shelf.old shelf.new)
        (Some name.now) pipeline_steps
        (λ held checked. pipeline_in held ≡ pipeline_of checked) result }
{
    let script = read_script(alloc, shelf, name)?;
    Ok(check(alloc, &script)?)
}

/// The same for a command that reads bars of a world of these names. The fault is also that the pipeline has
/// a number, and no file of numbers is named.
pub fn read_evaluated<S: Shelf>(
    alloc: Global,
    shelf: &mut S,
    name: &str,
    world: &WorldNames<'_>,
) -> Result<Checked, Fault>
    ensures { let asked = numbers_named (world_names_of world.now) in
        IsRead (shelf_change S.Shelf shelf.old shelf.new)
        (Some name.now) (λ held. evaluated_steps held asked)
        (λ held checked. pipeline_in held ≡ pipeline_of checked) result }
{
    let script = read_script(alloc, shelf, name)?;
    let checked = check(alloc, &script)?;
    judge_numbers(&script, world.numbers_named())?;
    Ok(checked)
}

/// The sessions of the sessions file of that name. The fault is that the shelf refused it, it is too long, or
/// it has a faulty record; or want of memory. So it is with each further file.
pub fn read_sessions<S: Shelf>(alloc: Global, shelf: &mut S, name: &str) -> Result<Sessions, Fault>
    ensures { IsRead (shelf_change S.Shelf shelf.old shelf.new)
        (Some name.now)
        (λ held. read_step files.Sessions sessions_rule held ∷ [])
        (λ held sessions. days_in held ≡ sessions) result }
{
    let bytes = read_input(alloc, shelf, name, InputFile::Sessions)?;
    Ok(Sessions::read(alloc, &bytes)?)
}

/// The assets of the assets file of that name.
pub fn read_assets<S: Shelf>(alloc: Global, shelf: &mut S, name: &str) -> Result<Assets, Fault>
    ensures { IsRead (shelf_change S.Shelf shelf.old shelf.new)
        (Some name.now)
        (λ held. read_step files.Assets assets_rule held ∷ [])
        (λ held assets. assets_in held ≡ assets) result }
{
    let bytes = read_input(alloc, shelf, name, InputFile::Assets)?;
    Ok(Assets::read(alloc, &bytes)?)
}

/// The labels of the labels file of that name, for these assets; no labels where no name is given, and then
/// nothing is read.
pub fn read_labels<S: Shelf>(
    alloc: Global,
    shelf: &mut S,
    name: Option<&str>,
    assets: &Assets,
) -> Result<Labels, Fault>
    ensures read { let asked = option_map (λ n. n.now) name.entry in
        IsRead (shelf_change S.Shelf shelf.old shelf.new)
        asked (labels_steps assets.now asked)
        (λ held labels. labels_asked assets.now asked held ≡ labels) result }
    ensures cols { IfOk result (λ labels. All (λ r. r.col < length assets.now) labels.rows) }
{
    match name {
        None => Ok(Labels::none(alloc)),
        Some(name) => {
            let bytes = read_input(alloc, shelf, name, InputFile::Labels)?;
            Ok(Labels::read(alloc, &bytes, assets)?)
        }
    }
}

/// The numbers of the numbers file of that name, for these assets; no numbers where no name is given, and
/// then nothing is read.
pub fn read_numbers<S: Shelf>(
    alloc: Global,
    shelf: &mut S,
    name: Option<&str>,
    assets: &Assets,
) -> Result<Numbers, Fault>
    ensures read { let asked = option_map (λ n. n.now) name.entry in
        IsRead (shelf_change S.Shelf shelf.old shelf.new)
        asked (numbers_steps assets.now asked)
        (λ held numbers. numbers_asked assets.now asked held ≡ numbers) result }
    ensures named { IfOk result (λ numbers. length numbers.names ≤ length numbers.rows) }
    ensures cols { IfOk result (λ numbers. All (λ r. r.col < length assets.now) numbers.rows) }
{
    match name {
        None => Ok(Numbers::none(alloc)),
        Some(name) => {
            let bytes = read_input(alloc, shelf, name, InputFile::Numbers)?;
            Ok(Numbers::read(alloc, &bytes, assets)?)
        }
    }
}

/// The numbers of a first file with those of the file of results of that name; as they are where no name is
/// given, and then nothing is read.
pub fn read_results<S: Shelf>(
    alloc: Global,
    shelf: &mut S,
    name: Option<&str>,
    assets: &Assets,
    numbers: Numbers,
) -> Result<Numbers, Fault>
    requires named { length numbers.names ≤ length numbers.rows }
    requires cols { All (λ r. r.col < length assets.now) numbers.rows }
    ensures read { let asked = option_map (λ n. n.now) name.entry in
        IsRead (shelf_change S.Shelf shelf.old shelf.new)
        asked (results_steps assets.now numbers asked)
        (λ held both. results_asked assets.now numbers asked held ≡ both) result }
    ensures cols { IfOk result (λ both. All (λ r. r.col < length assets.now) both.rows) }
{
    match name {
        None => Ok(numbers),
        Some(name) => {
            let bytes = read_input(alloc, shelf, name, InputFile::Results)?;
            match numbers.with_file(alloc, &bytes, assets) {
                Ok(both) => Ok(both),
                Err(error) => Err(numbers_fault(InputFile::Results, error)),
            }
        }
    }
}

/// The bars of the bars file of that name, for these sessions and assets. They are judged as they are read,
/// and the file is not held.
pub fn read_bars<S: Shelf>(
    alloc: Global,
    shelf: &mut S,
    name: &str,
    sessions: &Sessions,
    assets: &Assets,
) -> Result<Bars, Fault>
    ensures read { IsRead (shelf_change S.Shelf shelf.old shelf.new)
        (Some name.now)
        (λ held. read_step files.Bars (bars_rule sessions.now assets.now) held ∷ [])
        (λ held bars. bars_in sessions.now assets.now held ≡ bars) result }
    ensures cols { IfOk result (All (λ b. b.col < length assets.now)) }
    ensures sessions { IfOk result (All (λ b. b.session < length sessions.now)) }
{
    let mut reader = BarsReader::new(alloc, sessions, assets);
    pass_input(shelf, name, InputFile::Bars, &mut reader)?;
    Ok(reader.end()?)
}

/// The adjustments with the revisions of the revisions file of that name; as they are where no name is given,
/// and then nothing is read.
pub fn read_revisions<S: Shelf>(
    alloc: Global,
    shelf: &mut S,
    name: Option<&str>,
    sessions: &Sessions,
    assets: &Assets,
    mut adjustments: Adjustments,
) -> Result<Adjustments, Fault>
    ensures read { let asked = option_map (λ n. n.now) name.entry in
        IsRead (shelf_change S.Shelf shelf.old shelf.new)
        asked (revisions_steps sessions.now assets.now asked)
        (λ held revised. revised_asked sessions.now assets.now adjustments asked held ≡ revised) result }
    ensures cols { All (λ x. x.col < length assets.now) adjustments
        → IfOk result (All (λ x. x.col < length assets.now)) }
{
    match name {
        None => Ok(adjustments),
        Some(name) => {
            let bytes = read_input(alloc, shelf, name, InputFile::Revisions)?;
            adjustments.add_revisions(&bytes, sessions, assets)?;
            Ok(adjustments)
        }
    }
}

/// The payouts of the payouts file of that name, for these assets.
pub fn read_payouts<S: Shelf>(
    alloc: Global,
    shelf: &mut S,
    name: &str,
    assets: &Assets,
) -> Result<Payouts, Fault>
    ensures read { IsRead (shelf_change S.Shelf shelf.old shelf.new)
        (Some name.now)
        (λ held. read_step files.Payouts (payouts_rule assets.now) held ∷ [])
        (λ held payouts. payouts_in assets.now held ≡ payouts) result }
    ensures known { IfOk result (AreKnown assets.now) }
{
    let bytes = read_input(alloc, shelf, name, InputFile::Payouts)?;
    Ok(Payouts::read(alloc, &bytes, assets)?)
}

/// The lines of the derivation of that name, which are read and not yet judged.
pub fn read_derivation<S: Shelf>(
    alloc: Global,
    shelf: &mut S,
    name: &str,
) -> Result<Derivation, Fault>
    ensures { IsRead (shelf_change S.Shelf shelf.old shelf.new)
        (Some name.now)
        (λ held. derivation_step held ∷ [])
        (λ held lines. derivation_in held ≡ lines) result }
{
    let bytes = read_input(alloc, shelf, name, InputFile::Derivation)?;
    Ok(read_lines(alloc, &bytes)?)
}
