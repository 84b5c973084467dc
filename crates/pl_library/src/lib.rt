//! The whole library as one crate: each public type and call, taken from the crate that it belongs to.
//!
//! A program over the library may name this crate alone. The contract of a name is in the crate that it is
//! taken from.
#![tactic(auto)]

/// Cells, ratios, dates and sids, and the counter of steps.
pub mod numbers {
    pub use pl_fixed::{
        Column, DecimalFault, Frequency, KnownDate, LIM, LastDate, MISSING, Memory, Ratio,
        ReadyRatio, Steps, add, div, div_round, is_cell, isqrt, mul, neg, quot, read_day,
        read_decimal, read_sid, sub, to_cell, write_day, write_decimal,
    };
}

/// Files, tables of adjustments and output, as a program sees them, and such parts in memory.
pub mod outside {
    pub use pl_outside::{
        AdjustKeeper, Failed, GivenLog, KeepError, LoadedLog, Memory, MemoryKeeper, MemoryShelf,
        MemorySink, NoKeeper, NullSink, RawAdjust, ReadError, Shelf, Sink, Table, TakenLog,
        read_file, write_bytes,
    };
}

/// The parts of a world, and their readers.
pub mod world {
    pub use pl_adjust::{
        Adjust, AdjustError, Adjustments, Change, Effect, Kind, RevisionsError, effect_for,
        seen_now,
    };
    pub use pl_adjust_sql::{SqlKeeper, TableError, create_table, create_tables, read_table};
    pub use pl_assets::{AssetRow, Assets, AssetsError, LabelAt, Labels, LabelsError};
    pub use pl_bars::{BarRow, Bars, BarsError};
    pub use pl_calendar::{CalendarError, Sessions};
    pub use pl_model::{OwnedWorld, World, asof_world, cell_now};
    pub use pl_numbers::{NumberAt, Numbers, NumbersError};
}

/// Pipelines: texts, terms, and the plan of a range.
pub mod pipelines {
    pub use pl_check::{CheckError, CheckFault, check, first_number};
    pub use pl_planner::{Plan, PlanError, plan, reach_at};
    pub use pl_syntax::{
        Arg, ArgList, BinarySign, Expr, ExprNode, Place, PrefixSign, Script, Statement,
        SyntaxError, Word, parse, print,
    };
    pub use pl_terms::{
        Checked, Figure, Frequency, Graph, GraphError, Input, Inputs, LabelValue, NamedColumn,
        Node, RankMethod, RankOrder, SidList, TermId, TermKind, Text, TextList,
    };
}

/// What terms are computed with: windows, lanes, operations, cross-sections, and the slots of arrays.
pub mod engine {
    pub use pl_adjarray::{AdjustedArray, Windows};
    pub use pl_cross::{Cross, RankMethod, RankOrder, cross_into, select_into};
    pub use pl_elementary::{exp, log, maximum, minimum, sign, sqrt};
    pub use pl_exec::{Chunk, ChunkReport, Rows, execute_chunk};
    pub use pl_factors::formula;
    pub use pl_filters::{label_test, window_filter};
    pub use pl_lanes::{
        Compare, and_mask, compare_mask, max_present, min_present, or_mask, select, sum_present,
    };
    pub use pl_pointwise::pointwise;
    pub use pl_workspace::{Buffer, Workspace};
}

/// Tables, day by day or as a whole, payouts, derivations, and the program itself.
pub mod tables {
    pub use pl_cli::run_program;
    pub use pl_daily::{Daily, Day, DayBar, DayEvent, NotLater};
    pub use pl_explain::{
        CellList, Derivation, ExplainError, Line, LinesError, explain_cell, first_wrong,
        print_lines, reach_at, read_lines,
    };
    pub use pl_generate::make_world;
    pub use pl_payouts::{
        Payout, Payouts, PayoutsError, PayoutsOut, Skip, ratio_of, write_payouts,
    };
    pub use pl_runner::{Format, RunError, RunReport, run_table};
}
