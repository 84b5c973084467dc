//! What a command is asked for, and what it names.

ghost use Rattle.std.specs.Prelude.{◌≡◌, [], option_map, option_and_then, unwrap_or};
ghost use Rattle.pl_words.specs.Request.{adjustments_of, column_asked, column_named, date_asked, date_named, file_named, name_asked, numbers_named, pipeline_of, table_date, world_file, world_of};
ghost use Rattle.pl_words.specs.Views.{dated_of, request_of, run_of, text_of, world_names_of};

use pl_spec::{Column, Format};

/// A file that a command reads, by what it is to the command.
#[derive(Clone, Copy, Debug, PartialEq, Eq)]
pub enum InputFile {
    Pipeline,
    Sessions,
    Assets,
    Labels,
    Numbers,
    Results,
    Bars,
    Revisions,
    Payouts,
    Derivation,
}

/// Which date of a command is meant: FROM or TO of a table or a plan, that of `--asof`, or that of a cell.
#[derive(Clone, Copy, Debug, PartialEq, Eq)]
pub enum RangeDate {
    From,
    To,
    AsOf,
    At,
}

/// A part of a world, each with a file or a table of its own.
#[derive(Clone, Copy, Debug, PartialEq, Eq)]
pub enum WorldPart {
    Sessions,
    Assets,
    Bars,
    Labels,
    Numbers,
    Splits,
    Mergers,
    Dividends,
    Revisions,
}

/// A date as it is written, `YYYY-MM-DD`, and its day, counted from 1970-01-01.
#[derive(Clone, Copy)]
pub struct DateWord<'a> {
    pub text: &'a str,
    pub day: i32,
}

/// How many sessions a table is computed of at a time, from 1 to 4096, its form, whether its numbers are
/// told, and the date as of which it is.
#[derive(Clone, Copy)]
pub struct Options<'a> {
    pub chunk: u32,
    pub format: Format,
    pub stats: bool,
    pub as_of: Option<DateWord<'a>>,
}

/// The names of the files of a world, and those of its labels, numbers, results, adjustments and revisions
/// where it has some. Results are numbers of a second file.
#[derive(Clone, Copy)]
pub struct WorldNames<'a> {
    pub sessions: &'a str,
    pub assets: &'a str,
    pub bars: &'a str,
    pub labels: Option<&'a str>,
    pub numbers: Option<&'a str>,
    pub results: Option<&'a str>,
    pub adjustments: Option<&'a str>,
    pub revisions: Option<&'a str>,
}

/// What a table is asked for: the names of a pipeline and of a world, two dates, and its options.
#[derive(Clone, Copy)]
pub struct RunRequest<'a> {
    pub pipeline: &'a str,
    pub world: WorldNames<'a>,
    pub from: DateWord<'a>,
    pub to: DateWord<'a>,
    pub options: Options<'a>,
}

/// A table, and which part of what it reads of its world is asked for.
#[derive(Clone, Copy)]
pub struct CutRequest<'a> {
    pub table: RunRequest<'a>,
    pub part: WorldPart,
}

/// What a plan is asked for: the names of its two files, and two dates.
#[derive(Clone, Copy)]
pub struct PlanRequest<'a> {
    pub pipeline: &'a str,
    pub sessions: &'a str,
    pub from: DateWord<'a>,
    pub to: DateWord<'a>,
}

/// What a run of the stated pipeline over the stated world of that number is asked for, computed so many
/// sessions at a time, from 1 to 4096.
#[derive(Clone, Copy)]
pub struct BenchRequest {
    pub number: u32,
    pub chunk: u32,
}

/// The names of the files whose payouts are turned into ratios.
#[derive(Clone, Copy)]
pub struct PayoutsRequest<'a> {
    pub sessions: &'a str,
    pub assets: &'a str,
    pub bars: &'a str,
    pub payouts: &'a str,
}

/// The names of a pipeline, of a world and of a column, and the asset and the date of the cell that is asked
/// for.
#[derive(Clone, Copy)]
pub struct ExplainRequest<'a> {
    pub pipeline: &'a str,
    pub world: WorldNames<'a>,
    pub sid: u32,
    pub date: DateWord<'a>,
    pub column: &'a str,
}

/// The names of a derivation, and of the pipeline and the world of which it tells.
#[derive(Clone, Copy)]
pub struct VerifyRequest<'a> {
    pub pipeline: &'a str,
    pub world: WorldNames<'a>,
    pub derivation: &'a str,
}

/// The names of a world, a bar column, two dates, and how many sessions a window has, from 1 to 1260.
#[derive(Clone, Copy)]
pub struct WindowsRequest<'a> {
    pub world: WorldNames<'a>,
    pub column: Column,
    pub from: DateWord<'a>,
    pub to: DateWord<'a>,
    pub window: u32,
}

/// A command with what it is asked for.
#[derive(Clone, Copy)]
pub enum Request<'a> {
    /// The table of a pipeline.
    Run(RunRequest<'a>),
    /// The canonical text of the pipeline file of that name.
    Fmt(&'a str),
    /// Whether the pipeline file of that name keeps the rules of the language.
    Check(&'a str),
    /// The plan of a pipeline.
    Plan(PlanRequest<'a>),
    /// The numbers of a run over a stated world.
    Bench(BenchRequest),
    /// The ratios of payouts.
    Payouts(PayoutsRequest<'a>),
    /// Why a cell has its value.
    Explain(ExplainRequest<'a>),
    /// Whether the lines of a derivation are right.
    Verify(VerifyRequest<'a>),
    /// The table of a pipeline, computed session by session.
    Daily(RunRequest<'a>),
    /// A part of what a table reads of its world.
    Cut(CutRequest<'a>),
    /// The windows of a bar column.
    Windows(WindowsRequest<'a>),
}

/// The name of a file that words ask for; nothing where they ask for none.
pub fn name_asked<'a>(asked: Option<&Request<'a>>, file: InputFile) -> &'a str
    ensures { result.now ≡ unwrap_or (name_asked (option_map (λ q. request_of q.now) asked.entry) file) [] }
{
    match asked {
        Some(request) => request.file(file).unwrap_or(""),
        None => "",
    }
}

/// The text of a date that words ask for; nothing where they ask for none.
pub fn date_asked<'a>(asked: Option<&Request<'a>>, date: RangeDate) -> &'a str
    ensures { result.now ≡ unwrap_or (date_asked (option_map (λ q. request_of q.now) asked.entry) date) [] }
{
    match asked {
        Some(request) => request.date(date).unwrap_or(""),
        None => "",
    }
}

/// The name of the adjustments that words ask for; nothing where they ask for none.
pub fn adjustments_asked<'a>(asked: Option<&Request<'a>>) -> &'a str
    ensures { result.now ≡ unwrap_or (adjustments_of (option_map (λ q. request_of q.now) asked.entry)) [] }
{
    match asked {
        Some(request) => match request.world() {
            Some(world) => world.adjustments.unwrap_or(""),
            None => "",
        },
        None => "",
    }
}

/// The name of the column whose cell words ask for; nothing where they ask for none.
pub fn column_asked<'a>(asked: Option<&Request<'a>>) -> &'a str
    ensures { result.now ≡ unwrap_or (column_asked (option_map (λ q. request_of q.now) asked.entry)) [] }
{
    match asked {
        Some(Request::Explain(cell)) => cell.column,
        _ => "",
    }
}

impl<'a> Request<'a> {
    fn pipeline(&self) -> Option<&'a str>
        ensures { text_of result ≡ pipeline_of (request_of self.now) }
    {
        match self {
            Request::Run(table) | Request::Daily(table) => Some(table.pipeline),
            Request::Cut(cut) => Some(cut.table.pipeline),
            Request::Fmt(name) | Request::Check(name) => Some(name),
            Request::Plan(plan) => Some(plan.pipeline),
            Request::Explain(cell) => Some(cell.pipeline),
            Request::Verify(verify) => Some(verify.pipeline),
            Request::Bench(_) | Request::Payouts(_) | Request::Windows(_) => None,
        }
    }

    fn world(&self) -> Option<&WorldNames<'a>>
        ensures { option_map (λ w. world_names_of w.now) result ≡ world_of (request_of self.now) }
    {
        match self {
            Request::Run(table) | Request::Daily(table) => Some(&table.world),
            Request::Cut(cut) => Some(&cut.table.world),
            Request::Explain(cell) => Some(&cell.world),
            Request::Verify(verify) => Some(&verify.world),
            Request::Windows(windows) => Some(&windows.world),
            _ => None,
        }
    }

    // The name of a file, where the request has it.
    fn file(&self, file: InputFile) -> Option<&'a str>
        ensures { text_of result ≡ file_named (request_of self.now) file }
    {
        match (self, file) {
            (Request::Plan(plan), InputFile::Sessions) => Some(plan.sessions),
            (Request::Payouts(payouts), InputFile::Sessions) => Some(payouts.sessions),
            (Request::Payouts(payouts), InputFile::Assets) => Some(payouts.assets),
            (Request::Payouts(payouts), InputFile::Bars) => Some(payouts.bars),
            (Request::Payouts(payouts), InputFile::Payouts) => Some(payouts.payouts),
            (Request::Verify(verify), InputFile::Derivation) => Some(verify.derivation),
            (_, InputFile::Pipeline) => self.pipeline(),
            _ => self.world_file(file),
        }
    }

    // The name of a file of its world, where it is over one.
    fn world_file(&self, file: InputFile) -> Option<&'a str>
        ensures { text_of result ≡ option_and_then (λ w. world_file w file) (world_of (request_of self.now)) }
    {
        match self.world() {
            Some(world) => world.file(file),
            None => None,
        }
    }

    // A date as it is written, where the request has it.
    fn date(&self, date: RangeDate) -> Option<&'a str>
        ensures { text_of result ≡ date_named (request_of self.now) date }
    {
        match (self, date) {
            (Request::Run(table) | Request::Daily(table), _) => table.date(date),
            (Request::Cut(cut), _) => cut.table.date(date),
            (Request::Plan(plan), RangeDate::From) => Some(plan.from.text),
            (Request::Plan(plan), RangeDate::To) => Some(plan.to.text),
            (Request::Explain(cell), RangeDate::At) => Some(cell.date.text),
            (Request::Windows(windows), RangeDate::From) => Some(windows.from.text),
            (Request::Windows(windows), RangeDate::To) => Some(windows.to.text),
            _ => None,
        }
    }
}

impl<'a> WorldNames<'a> {
    /// The name of a file of numbers: that of the first one, or else that of the results.
    pub fn numbers_named(&self) -> Option<&'a str>
        ensures { text_of result ≡ numbers_named (world_names_of self.now) }
    {
        match self.numbers {
            Some(name) => Some(name),
            None => self.results,
        }
    }

    fn file(&self, file: InputFile) -> Option<&'a str>
        ensures { text_of result ≡ world_file (world_names_of self.now) file }
    {
        match file {
            InputFile::Sessions => Some(self.sessions),
            InputFile::Assets => Some(self.assets),
            InputFile::Labels => self.labels,
            InputFile::Numbers => self.numbers,
            InputFile::Results => self.results,
            InputFile::Bars => Some(self.bars),
            InputFile::Revisions => self.revisions,
            InputFile::Pipeline | InputFile::Payouts | InputFile::Derivation => None,
        }
    }
}

impl<'a> RunRequest<'a> {
    fn date(&self, date: RangeDate) -> Option<&'a str>
        ensures { text_of result ≡ table_date (run_of self.now) date }
    {
        match date {
            RangeDate::From => Some(self.from.text),
            RangeDate::To => Some(self.to.text),
            RangeDate::AsOf => text_of(self.options.as_of),
            RangeDate::At => None,
        }
    }
}

fn text_of<'a>(date: Option<DateWord<'a>>) -> Option<&'a str>
    ensures { text_of result ≡ option_map (λ d. d.text) (option_map dated_of date.entry) }
{
    match date {
        Some(date) => Some(date.text),
        None => None,
    }
}
