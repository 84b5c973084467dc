//! What the errors of the readers and of the checker are to a command.

ghost use Rattle.std.specs.Prelude.{◌≡◌};
ghost use Rattle.pl_words.specs.declared.request.InputFile.TheVariants as files;
ghost use Rattle.pl_numbers.specs.NumberFaults as numbers;
ghost use Rattle.pl_load.specs.declared.fault.Limit.TheVariants as limits;
ghost use Rattle.pl_load.specs.Stages.{IsErrorFault};
ghost use Rattle.pl_load.specs.Rules.{line_fault, fault_or_memory, rows_fault, rows_limit, syntax_error, rule_fault, check_error, plan_error, lines_error, explain_error};

use crate::fault::{Fault, Limit, RowFault, RuleFault, SyntaxFault};
use pl_adjust::{AdjustError, RevisionsError};
use pl_assets::{AssetsError, LabelsError};
use pl_bars::BarsError;
use pl_calendar::CalendarError;
use pl_check::{CheckError, CheckFault};
use pl_derivation::{ExplainError, LinesError};
use pl_fixed::Memory;
use pl_numbers::NumbersError;
use pl_payouts::PayoutsError;
use pl_planner::PlanError;
use pl_records::DataFault;
use pl_syntax::{Place, SyntaxError};
use pl_words::InputFile;
use std::alloc::AllocError;

impl From<AllocError> for Fault {
    ghost use Rattle.pl_load.specs.declared.fault.Fault.TheVariants.{Memory};

    ghost from_gives = { λ _ fault. fault ≡ Memory };

    fn from(_refused: AllocError) -> Fault {
        Fault::Memory
    }
}

impl From<Memory> for Fault {
    ghost use Rattle.pl_load.specs.declared.fault.Fault.TheVariants.{Memory};

    ghost from_gives = { λ _ fault. fault ≡ Memory };

    fn from(_refused: Memory) -> Fault {
        Fault::Memory
    }
}

impl From<SyntaxError> for Fault {
    ghost from_gives = { λ error fault. IsErrorFault fault (syntax_error error) };

    fn from(error: SyntaxError) -> Fault {
        match error {
            SyntaxError::BadByte(place) => misspelled(place, SyntaxFault::BadByte),
            SyntaxError::Unexpected(place) => misspelled(place, SyntaxFault::Unexpected),
            SyntaxError::TooDeep(place) => misspelled(place, SyntaxFault::TooDeep),
            SyntaxError::NumberTooLarge(place) => misspelled(place, SyntaxFault::NumberTooLarge),
            SyntaxError::LongStatement(place) => misspelled(place, SyntaxFault::LongStatement),
            SyntaxError::TooLong => Fault::Passed(Limit::Pipeline),
            SyntaxError::Memory => Fault::Memory,
        }
    }
}

impl From<CheckError> for Fault {
    ghost from_gives = { λ error fault. IsErrorFault fault (check_error error) };

    fn from(error: CheckError) -> Fault {
        match error {
            CheckError::Fault { fault, place } => broken(place, fault),
            CheckError::Memory => Fault::Memory,
        }
    }
}

impl From<CalendarError> for Fault {
    ghost use Rattle.pl_calendar.specs.Faults as calendar;

    ghost from_gives = { λ error fault. IsErrorFault fault (line_fault files.Sessions (calendar.fault_of error)) };

    fn from(error: CalendarError) -> Fault {
        let file = InputFile::Sessions;
        match error {
            CalendarError::BadDate { line } => faulty(file, line, DataFault::BadDate),
            CalendarError::NotAscending { line } => faulty(file, line, DataFault::NotAscending),
            CalendarError::Empty => faulty(file, 1, DataFault::Empty),
            CalendarError::TooMany { .. } => Fault::Passed(Limit::Sessions),
            CalendarError::Memory => Fault::Memory,
        }
    }
}

impl From<AssetsError> for Fault {
    ghost use Rattle.pl_lifetimes.specs.Faults as assets;

    ghost from_gives = { λ error fault. IsErrorFault fault (line_fault files.Assets (assets.fault_of error)) };

    fn from(error: AssetsError) -> Fault {
        let file = InputFile::Assets;
        match error {
            AssetsError::BadHeader => faulty(file, 1, DataFault::BadHeader),
            AssetsError::BadField { line } => faulty(file, line, DataFault::BadField),
            AssetsError::StartAfterEnd { line } => faulty(file, line, DataFault::StartAfterEnd),
            AssetsError::DuplicateSid { line } => faulty(file, line, DataFault::DuplicateSid),
            AssetsError::TooMany { .. } => Fault::Passed(Limit::Assets),
            AssetsError::Memory => Fault::Memory,
        }
    }
}

impl From<LabelsError> for Fault {
    ghost use Rattle.pl_assets.specs.LabelFaults as labels;

    ghost from_gives = { λ error fault. IsErrorFault fault (line_fault files.Labels (labels.fault_of error)) };

    fn from(error: LabelsError) -> Fault {
        let file = InputFile::Labels;
        match error {
            LabelsError::BadHeader => faulty(file, 1, DataFault::BadHeader),
            LabelsError::BadField { line } => faulty(file, line, DataFault::BadField),
            LabelsError::LabelTooLong { line } => faulty(file, line, DataFault::LabelTooLong),
            LabelsError::UnknownSid { line } => faulty(file, line, DataFault::UnknownSid),
            LabelsError::DuplicateStart { line } => faulty(file, line, DataFault::DuplicateStart),
            LabelsError::TooMany { .. } => Fault::Passed(Limit::Labels),
            LabelsError::Memory => Fault::Memory,
        }
    }
}

impl From<NumbersError> for Fault {
    ghost from_gives = { λ error fault. IsErrorFault fault (line_fault files.Numbers (numbers.fault_of error)) };

    fn from(error: NumbersError) -> Fault {
        numbers_fault(InputFile::Numbers, error)
    }
}

// The fault of a file of numbers, which is the first one or that of the results.
pub(crate) fn numbers_fault(file: InputFile, error: NumbersError) -> Fault
    requires { rows_limit file ≡ limits.Numbers }
    ensures { IsErrorFault result (line_fault file (numbers.fault_of error)) }
{
    match error {
        NumbersError::BadHeader => faulty(file, 1, DataFault::BadHeader),
        NumbersError::BadField { line } => faulty(file, line, DataFault::BadField),
        NumbersError::UnknownSid { line } => faulty(file, line, DataFault::UnknownSid),
        NumbersError::Duplicate { line } => faulty(file, line, DataFault::Duplicate),
        NumbersError::TooMany { .. } => Fault::Passed(Limit::Numbers),
        NumbersError::Memory => Fault::Memory,
    }
}

impl From<BarsError> for Fault {
    ghost use Rattle.pl_bars.specs.Faults as bars;

    ghost from_gives = { λ error fault. IsErrorFault fault (line_fault files.Bars (bars.fault_of error)) };

    fn from(error: BarsError) -> Fault {
        let file = InputFile::Bars;
        match error {
            BarsError::BadHeader => faulty(file, 1, DataFault::BadHeader),
            BarsError::BadField { line } => faulty(file, line, DataFault::BadField),
            BarsError::NotSession { line } => faulty(file, line, DataFault::NotSession),
            BarsError::UnknownSid { line } => faulty(file, line, DataFault::UnknownSid),
            BarsError::Negative { line } => faulty(file, line, DataFault::Negative),
            BarsError::Duplicate { line } => faulty(file, line, DataFault::Duplicate),
            BarsError::TooMany { .. } => Fault::Passed(Limit::Bars),
            BarsError::Memory => Fault::Memory,
        }
    }
}

impl From<RevisionsError> for Fault {
    ghost use Rattle.pl_adjust.specs.RevisionFaults as revisions;

    ghost from_gives = { λ error fault. IsErrorFault fault (line_fault files.Revisions (revisions.fault_of error)) };

    fn from(error: RevisionsError) -> Fault {
        let file = InputFile::Revisions;
        match error {
            RevisionsError::BadHeader => faulty(file, 1, DataFault::BadHeader),
            RevisionsError::BadField { line } => faulty(file, line, DataFault::BadField),
            RevisionsError::NotSession { line } => faulty(file, line, DataFault::NotSession),
            RevisionsError::UnknownSid { line } => faulty(file, line, DataFault::UnknownSid),
            RevisionsError::Negative { line } => faulty(file, line, DataFault::Negative),
            RevisionsError::TooSoon { line } => faulty(file, line, DataFault::TooSoon),
            RevisionsError::Duplicate { line } => faulty(file, line, DataFault::Duplicate),
            RevisionsError::TooMany { .. } => Fault::Passed(Limit::Revisions),
            RevisionsError::Memory => Fault::Memory,
        }
    }
}

impl From<PayoutsError> for Fault {
    ghost use Rattle.pl_payouts.specs.Faults as payouts;

    ghost from_gives = { λ error fault. IsErrorFault fault (line_fault files.Payouts (payouts.fault_of error)) };

    fn from(error: PayoutsError) -> Fault {
        let file = InputFile::Payouts;
        match error {
            PayoutsError::BadHeader => faulty(file, 1, DataFault::BadHeader),
            PayoutsError::BadField { line } => faulty(file, line, DataFault::BadField),
            PayoutsError::UnknownSid { line } => faulty(file, line, DataFault::UnknownSid),
            PayoutsError::NotPositive { line } => faulty(file, line, DataFault::NotPositive),
            PayoutsError::TooMany { .. } => Fault::Passed(Limit::Payouts),
            PayoutsError::Memory => Fault::Memory,
        }
    }
}

impl From<LinesError> for Fault {
    ghost from_gives = { λ error fault. IsErrorFault fault (lines_error error) };

    fn from(error: LinesError) -> Fault {
        match error {
            LinesError::BadLine { line } => {
                faulty(InputFile::Derivation, line, DataFault::BadLine)
            }
            LinesError::TooMany { .. } => Fault::Passed(Limit::Derivation),
            LinesError::Memory => Fault::Memory,
        }
    }
}

impl From<ExplainError> for Fault {
    ghost from_gives = { λ error fault. IsErrorFault fault (explain_error error) };

    fn from(error: ExplainError) -> Fault {
        match error {
            ExplainError::TooLong => Fault::Passed(Limit::Derivation),
            ExplainError::Memory => Fault::Memory,
        }
    }
}

impl From<AdjustError> for Fault {
    ghost use Rattle.pl_adjust.specs.Faults as rows;

    ghost from_gives = { λ error fault. IsErrorFault fault (fault_or_memory rows_fault (rows.fault_of error)) };

    fn from(error: AdjustError) -> Fault {
        match error {
            AdjustError::BadEffective { table, id } => Fault::Row {
                table,
                id,
                fault: RowFault::BadEffective,
            },
            AdjustError::BadRatio { table, id } => Fault::Row {
                table,
                id,
                fault: RowFault::BadRatio,
            },
            AdjustError::TooMany => Fault::Passed(Limit::Adjustments),
            AdjustError::Memory => Fault::Memory,
        }
    }
}

impl From<PlanError> for Fault {
    ghost from_gives = { λ error fault. IsErrorFault fault (plan_error error) };

    fn from(error: PlanError) -> Fault {
        match error {
            PlanError::TooEarly { reach } => Fault::TooEarly { reach },
            PlanError::TooDeep { .. } => Fault::Passed(Limit::Extra),
            PlanError::Memory => Fault::Memory,
        }
    }
}

fn misspelled(place: Place, fault: SyntaxFault) -> Fault
    ensures { result ≡ Fault.Syntax place fault }
{
    Fault::Syntax { place, fault }
}

// A rule that the script of a pipeline file breaks.
fn broken(place: Place, fault: CheckFault) -> Fault
    ensures { IsErrorFault result (rule_fault fault place) }
{
    match fault {
        CheckFault::UnknownName => ruled(place, RuleFault::UnknownName),
        CheckFault::Redefined => ruled(place, RuleFault::Redefined),
        CheckFault::WrongKind => ruled(place, RuleFault::WrongKind),
        CheckFault::BadArgument => ruled(place, RuleFault::BadArgument),
        CheckFault::BadWindow => ruled(place, RuleFault::BadWindow),
        CheckFault::NotWindowSafe => ruled(place, RuleFault::NotWindowSafe),
        CheckFault::NoColumn => ruled(place, RuleFault::NoColumn),
        CheckFault::TooManyColumns => Fault::Passed(Limit::Columns),
        CheckFault::TooManyTerms => Fault::Passed(Limit::Terms),
    }
}

pub(crate) fn ruled(place: Place, fault: RuleFault) -> Fault
    ensures { result ≡ Fault.Rule place fault }
{
    Fault::Rule { place, fault }
}

fn faulty(file: InputFile, line: u32, fault: DataFault) -> Fault
    ensures { result ≡ Fault.Data file line fault }
{
    Fault::Data { file, line, fault }
}
