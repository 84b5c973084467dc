//! What is known of each kind of term.
ghost use Rattle.std.specs.Prelude.{◌≡◌, None, true, false};
ghost use Rattle.pl_pipeline.specs.Kind as kinds;
ghost use Rattle.pl_terms.specs.Kinds.{is_kind, is_not_kind, kind_of};
ghost use Rattle.pl_terms.specs.Rows as spec;
ghost use Rattle.pl_terms.specs.Windows.{window_in};

use crate::kind::{LabelValue, TermKind, window_kind, window_row};
use pl_pipeline::{Summary, WindowKind};
use pl_spec::{Figure, Frequency};

/// How the value of a kind comes from those of its inputs: a constant in millionths, a label under the name
/// of a number, a number beside bars, or its age, under such a name, a list of sids, a formula or a filter over windows,
/// an operation on the values of one place, a test of a label, a cross-section, or the input's value on the
/// first session of the period.
#[derive(Clone, Copy, Debug, PartialEq, Eq)]
pub enum Family {
    Constant(i64),
    Label(u32),
    Number(Figure, u32),
    Sids,
    Window,
    Point,
    LabelTest,
    Section,
    Downsample(Frequency),
}

/// What a term is: a factor, a filter, a label classifier or a numbered one.
#[derive(Clone, Copy, Debug, PartialEq, Eq)]
pub enum Sort {
    Factors,
    Filters,
    Labels,
    Numbers,
}

/// What is known of a kind: its name in the text of a plan, its family, the sort that it gives, whether it may
/// stand in a window by itself, or where all that it is of may, and whether it keeps the values of its own
/// sessions, from wherever it is seen.
#[derive(Clone, Copy)]
pub struct KindRow {
    pub name: &'static str,
    pub family: Family,
    pub sort: Sort,
    pub is_safe: bool,
    pub is_safe_over: bool,
    pub keeps_values: bool,
}

fn figure_name(figure: Figure) -> &'static str
    ensures { result.now ≡ spec.figure_name figure }
{
    match figure {
        Figure::Value => "Number",
        Figure::Days => "Age",
        Figure::BusinessDays => "BusinessAge",
    }
}

// A term of no inputs may stand in a window.
fn leaf(name: &'static str, family: Family, sort: Sort) -> KindRow
    ensures name { result.name.now ≡ name.now }
    ensures family { result.family ≡ family }
    ensures sort { result.sort ≡ sort }
    ensures is_safe { result.is_safe ≡ true }
    ensures is_safe_over { result.is_safe_over ≡ false }
    ensures keeps_values { result.keeps_values ≡ true }
{
    KindRow {
        name,
        family,
        sort,
        is_safe: true,
        is_safe_over: false,
        keeps_values: true,
    }
}

// An operation on the values of one place, which keeps its values or moves with them.
fn point(name: &'static str, sort: Sort, keeps_values: bool) -> KindRow
    ensures name { result.name.now ≡ name.now }
    ensures family { result.family ≡ Family.Point }
    ensures sort { result.sort ≡ sort }
    ensures is_safe { result.is_safe ≡ keeps_values }
    ensures is_safe_over { result.is_safe_over ≡ true }
    ensures keeps_values { result.keeps_values ≡ keeps_values }
{
    KindRow {
        name,
        family: Family::Point,
        sort,
        is_safe: keeps_values,
        is_safe_over: true,
        keeps_values,
    }
}

fn number(name: &'static str) -> KindRow
    ensures name { result.name.now ≡ name.now }
    ensures family { result.family ≡ Family.Point }
    ensures sort { result.sort ≡ Sort.Factors }
    ensures is_safe { result.is_safe ≡ false }
    ensures is_safe_over { result.is_safe_over ≡ true }
    ensures keeps_values { result.keeps_values ≡ false }
{
    point(name, Sort::Factors, false)
}

fn test(name: &'static str) -> KindRow
    ensures name { result.name.now ≡ name.now }
    ensures family { result.family ≡ Family.Point }
    ensures sort { result.sort ≡ Sort.Filters }
    ensures is_safe { result.is_safe ≡ true }
    ensures is_safe_over { result.is_safe_over ≡ true }
    ensures keeps_values { result.keeps_values ≡ true }
{
    point(name, Sort::Filters, true)
}

fn label_test(name: &'static str) -> KindRow
    ensures name { result.name.now ≡ name.now }
    ensures family { result.family ≡ Family.LabelTest }
    ensures sort { result.sort ≡ Sort.Filters }
    ensures is_safe { result.is_safe ≡ true }
    ensures is_safe_over { result.is_safe_over ≡ false }
    ensures keeps_values { result.keeps_values ≡ true }
{
    KindRow {
        name,
        family: Family::LabelTest,
        sort: Sort::Filters,
        is_safe: true,
        is_safe_over: false,
        keeps_values: true,
    }
}

fn section(name: &'static str, sort: Sort, is_safe: bool, is_safe_over: bool) -> KindRow
    ensures name { result.name.now ≡ name.now }
    ensures family { result.family ≡ Family.Section }
    ensures sort { result.sort ≡ sort }
    ensures is_safe { result.is_safe ≡ is_safe }
    ensures is_safe_over { result.is_safe_over ≡ is_safe_over }
    ensures keeps_values { result.keeps_values ≡ true }
{
    KindRow {
        name,
        family: Family::Section,
        sort,
        is_safe,
        is_safe_over,
        keeps_values: true,
    }
}

fn downsampled(frequency: Frequency) -> KindRow
    ensures name { result.name.now ≡ (spec.kind_row (kinds.Downsample frequency)).name }
    ensures family { result.family ≡ (spec.kind_row (kinds.Downsample frequency)).family }
    ensures sort { result.sort ≡ (spec.kind_row (kinds.Downsample frequency)).sort }
    ensures is_safe { result.is_safe ≡ (spec.kind_row (kinds.Downsample frequency)).is_safe }
    ensures is_safe_over { result.is_safe_over ≡ (spec.kind_row (kinds.Downsample frequency)).is_safe_over }
    ensures keeps_values { result.keeps_values ≡ (spec.kind_row (kinds.Downsample frequency)).keeps_values }
{
    KindRow {
        name: "Downsample",
        family: Family::Downsample(frequency),
        sort: Sort::Factors,
        is_safe: false,
        is_safe_over: true,
        keeps_values: true,
    }
}

// The row of a summary.
fn summary_row(summary: Summary) -> KindRow
    ensures name { result.name.now ≡ (spec.cross_row (kinds.Summarize summary)).name }
    ensures family { result.family ≡ (spec.cross_row (kinds.Summarize summary)).family }
    ensures sort { result.sort ≡ (spec.cross_row (kinds.Summarize summary)).sort }
    ensures is_safe { result.is_safe ≡ (spec.cross_row (kinds.Summarize summary)).is_safe }
    ensures is_safe_over { result.is_safe_over ≡ (spec.cross_row (kinds.Summarize summary)).is_safe_over }
    ensures keeps_values { result.keeps_values ≡ (spec.cross_row (kinds.Summarize summary)).keeps_values }
{
    match summary {
        Summary::Mean => section("Mean", Sort::Factors, false, true),
        Summary::StdDev => section("StdDev", Sort::Factors, false, true),
        Summary::Sum => section("Sum", Sort::Factors, false, true),
        Summary::Least => section("Min", Sort::Factors, false, true),
        Summary::Greatest => section("Max", Sort::Factors, false, true),
        Summary::Median => section("Median", Sort::Factors, false, true),
        Summary::Percentile { .. } => section("Percentile", Sort::Factors, false, true),
        Summary::NotNullCount => section("NotNullCount", Sort::Factors, true, true),
    }
}

// The row of a comparison with a label, or with a number.
fn equal_row(label: &LabelValue) -> KindRow
    ensures name { result.name.now ≡ (spec.kind_row (is_kind label.now)).name }
    ensures family { result.family ≡ (spec.kind_row (is_kind label.now)).family }
    ensures sort { result.sort ≡ (spec.kind_row (is_kind label.now)).sort }
    ensures is_safe { result.is_safe ≡ (spec.kind_row (is_kind label.now)).is_safe }
    ensures is_safe_over { result.is_safe_over ≡ (spec.kind_row (is_kind label.now)).is_safe_over }
    ensures keeps_values { result.keeps_values ≡ (spec.kind_row (is_kind label.now)).keeps_values }
{
    match label {
        LabelValue::Text(_) => label_test("LabelIs"),
        LabelValue::Number(_) => test("LabelIs"),
    }
}

fn unequal_row(label: &LabelValue) -> KindRow
    ensures name { result.name.now ≡ (spec.kind_row (is_not_kind label.now)).name }
    ensures family { result.family ≡ (spec.kind_row (is_not_kind label.now)).family }
    ensures sort { result.sort ≡ (spec.kind_row (is_not_kind label.now)).sort }
    ensures is_safe { result.is_safe ≡ (spec.kind_row (is_not_kind label.now)).is_safe }
    ensures is_safe_over { result.is_safe_over ≡ (spec.kind_row (is_not_kind label.now)).is_safe_over }
    ensures keeps_values { result.keeps_values ≡ (spec.kind_row (is_not_kind label.now)).keeps_values }
{
    match label {
        LabelValue::Text(_) => label_test("LabelIsNot"),
        LabelValue::Number(_) => test("LabelIsNot"),
    }
}

// The sort of a formula or a filter over a window.
fn window_sort(kind: WindowKind) -> Sort
    ensures { result ≡ spec.window_sort kind }
{
    match kind {
        WindowKind::All | WindowKind::Any | WindowKind::AtLeastN { .. } | WindowKind::AllPresent =>
            { Sort::Filters }
        _ => Sort::Factors,
    }
}

// Its row: it keeps its values where a window may be over it.
fn windowed(kind: WindowKind) -> KindRow
    ensures name { result.name.now ≡ (spec.window_row kind).name }
    ensures family { result.family ≡ (spec.window_row kind).family }
    ensures sort { result.sort ≡ (spec.window_row kind).sort }
    ensures is_safe { result.is_safe ≡ (spec.window_row kind).is_safe }
    ensures is_safe_over { result.is_safe_over ≡ (spec.window_row kind).is_safe_over }
    ensures keeps_values { result.keeps_values ≡ (spec.window_row kind).keeps_values }
{
    let row = window_row(kind);
    KindRow {
        name: row.name,
        family: Family::Window,
        sort: window_sort(kind),
        is_safe: row.is_safe,
        is_safe_over: false,
        keeps_values: row.is_safe,
    }
}

/// The row of a kind.
pub fn kind_row(kind: &TermKind) -> KindRow
    ensures name { result.name.now ≡ (spec.kind_row (kind_of kind.now)).name }
    ensures family { result.family ≡ (spec.kind_row (kind_of kind.now)).family }
    ensures sort { result.sort ≡ (spec.kind_row (kind_of kind.now)).sort }
    ensures is_safe { result.is_safe ≡ (spec.kind_row (kind_of kind.now)).is_safe }
    ensures is_safe_over { result.is_safe_over ≡ (spec.kind_row (kind_of kind.now)).is_safe_over }
    ensures keeps_values { result.keeps_values ≡ (spec.kind_row (kind_of kind.now)).keeps_values }
{
    match window_kind(kind) {
        Some(window) => windowed(window),
        None => other_row(kind),
    }
}

// The row of a kind that is over no window.
#[tactic(auto, unfolding(crate::specs::Kinds::kind_of))]
fn other_row(kind: &TermKind) -> KindRow
    requires { window_in (kind_of kind.now) ≡ None }
    ensures name { result.name.now ≡ (spec.kind_row (kind_of kind.now)).name }
    ensures family { result.family ≡ (spec.kind_row (kind_of kind.now)).family }
    ensures sort { result.sort ≡ (spec.kind_row (kind_of kind.now)).sort }
    ensures is_safe { result.is_safe ≡ (spec.kind_row (kind_of kind.now)).is_safe }
    ensures is_safe_over { result.is_safe_over ≡ (spec.kind_row (kind_of kind.now)).is_safe_over }
    ensures keeps_values { result.keeps_values ≡ (spec.kind_row (kind_of kind.now)).keeps_values }
{
    match kind {
        TermKind::Const { value } => leaf("Const", Family::Constant(*value), Sort::Factors),
        TermKind::Label { name } => leaf("Label", Family::Label(*name), Sort::Labels),
        TermKind::Number { figure, name } => {
            let family = Family::Number(*figure, *name);
            leaf(figure_name(*figure), family, Sort::Factors)
        }
        TermKind::StaticSids { .. } => leaf("StaticSids", Family::Sids, Sort::Filters),
        TermKind::Add => number("Add"),
        TermKind::Sub => number("Sub"),
        TermKind::Mul => number("Mul"),
        TermKind::Div => number("Div"),
        TermKind::Neg => number("Neg"),
        TermKind::Less => test("Less"),
        TermKind::LessEqual => test("LessEqual"),
        TermKind::Greater => test("Greater"),
        TermKind::GreaterEqual => test("GreaterEqual"),
        TermKind::Equal => test("Equal"),
        TermKind::NotEqual => test("NotEqual"),
        TermKind::And => test("And"),
        TermKind::Or => test("Or"),
        TermKind::Not => test("Not"),
        TermKind::LabelIs { label } => equal_row(label),
        TermKind::LabelIsNot { label } => unequal_row(label),
        TermKind::Abs => number("Abs"),
        TermKind::Clip { .. } => number("Clip"),
        TermKind::FillNa => number("FillNa"),
        TermKind::IsNull => test("IsNull"),
        TermKind::NotNull => test("NotNull"),
        TermKind::IfElse => number("IfElse"),
        TermKind::Log => number("Log"),
        TermKind::Exp => number("Exp"),
        TermKind::Sqrt => number("Sqrt"),
        TermKind::Sign => point("Sign", Sort::Factors, true),
        TermKind::Maximum => number("Maximum"),
        TermKind::Minimum => number("Minimum"),
        TermKind::Where => number("Where"),
        TermKind::Rank { .. } => section("Rank", Sort::Factors, true, false),
        TermKind::Demean => section("Demean", Sort::Factors, false, true),
        TermKind::ZScore => section("ZScore", Sort::Factors, true, false),
        TermKind::Quantiles { .. } => section("Quantiles", Sort::Numbers, true, false),
        TermKind::Top { .. } => section("Top", Sort::Filters, true, false),
        TermKind::Bottom { .. } => section("Bottom", Sort::Filters, true, false),
        TermKind::PercentileBetween { .. } => section(
            "PercentileBetween",
            Sort::Filters,
            true,
            false,
        ),
        TermKind::PeerCount => section("PeerCount", Sort::Factors, true, false),
        TermKind::Winsorize { .. } => section("Winsorize", Sort::Factors, false, true),
        TermKind::Scale => section("Scale", Sort::Factors, true, false),
        TermKind::Summarize { summary } => summary_row(*summary),
        TermKind::StartsWith { .. } => label_test("StartsWith"),
        TermKind::EndsWith { .. } => label_test("EndsWith"),
        TermKind::HasSubstring { .. } => label_test("HasSubstring"),
        TermKind::ElementOf { .. } => label_test("ElementOf"),
        TermKind::Downsample { frequency } => downsampled(*frequency),
        _ => number(""),
    }
}
