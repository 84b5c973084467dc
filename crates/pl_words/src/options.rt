//! The options of a table, by the values that each was given.

ghost use Rattle.std.specs.Prelude.{◌≡◌, ◌≤◌, None, Some, MatchOption, length, map, option_map};
ghost use Rattle.pl_words.specs.Apps.{values_in};
ghost use Rattle.pl_words.specs.Request.{as_of_by, dated, chunk_in, chunk_by, format_in, format_by, stats_by, options_by, part_by, part_in, usual, bar_column_in, bars_world_in, column_in, window_in, world_in};
ghost use Rattle.pl_words.specs.Views.{dated_of, options_of, world_names_of};

use crate::commands::OptionName;
use crate::cut::value;
use crate::request::{DateWord, Options, WorldNames, WorldPart};
use clap::ArgMatches;
use pl_fixed::{is_name, read_day, read_sid};
use pl_spec::{Column, Format};

// How many sessions a chunk has at most.
const MOST_CHUNK: u32 = 4096;

pub(crate) fn options<'a>(matches: &ArgMatches<'a>) -> Option<Options<'a>>
    ensures { MatchOption result (options_by (values_in matches.now) ≡ None)
        (λ s. options_by (values_in matches.now) ≡ Some (options_of s)) }
{
    let chunk = chunk(matches)?;
    let format = format(matches)?;
    let stats = stats(matches)?;
    let as_of = as_of(matches)?;
    Some(Options {
        chunk,
        format,
        stats,
        as_of,
    })
}

/// The names of a world: three of the names, and the values of five options.
pub(crate) fn world_in<'a>(names: &[&'a str], matches: &ArgMatches<'a>) -> Option<WorldNames<'a>>
    requires { 4 ≤ length names.now }
    ensures { MatchOption result
        (world_in (map (λ v. v.now) names.now) (values_in matches.now) ≡ None)
        (λ r. world_in (map (λ v. v.now) names.now) (values_in matches.now) ≡ Some (world_names_of r)) }
{
    let labels = value(matches, OptionName::Labels).ok()?;
    let numbers = value(matches, OptionName::Numbers).ok()?;
    let results = value(matches, OptionName::Results).ok()?;
    let adjustments = value(matches, OptionName::Adjustments).ok()?;
    let revisions = value(matches, OptionName::Revisions).ok()?;
    Some(WorldNames {
        sessions: names[1],
        assets: names[2],
        bars: names[3],
        labels,
        numbers,
        results,
        adjustments,
        revisions,
    })
}

// How many sessions are computed at a time where the words don't say.
const USUAL_CHUNK: u32 = 126;

/// The names of a world without labels and numbers: three names from the first one on, and the values of two
/// options.
pub(crate) fn bars_world_in<'a>(
    names: &[&'a str],
    matches: &ArgMatches<'a>,
) -> Option<WorldNames<'a>>
    requires { 3 ≤ length names.now }
    ensures { MatchOption result
        (bars_world_in (map (λ v. v.now) names.now) (values_in matches.now) ≡ None)
        (λ r. bars_world_in (map (λ v. v.now) names.now) (values_in matches.now)
        ≡ Some (world_names_of r)) }
{
    let adjusted = value(matches, OptionName::Adjustments).ok()?;
    let revised = value(matches, OptionName::Revisions).ok()?;
    Some(WorldNames {
        sessions: names[0],
        assets: names[1],
        bars: names[2],
        labels: None,
        numbers: None,
        results: None,
        adjustments: adjusted,
        revisions: revised,
    })
}

/// The options of a table whose words give its form alone.
pub(crate) fn usual<'a>(format: Format) -> Options<'a>
    ensures { options_of result ≡ usual format }
{
    Options {
        chunk: USUAL_CHUNK,
        format,
        stats: false,
        as_of: None,
    }
}

pub(crate) fn chunk(matches: &ArgMatches<'_>) -> Option<u32>
    ensures { result ≡ chunk_by (values_in matches.now) }
{
    match value(matches, OptionName::Chunk) {
        Err(_) => None,
        Ok(None) => Some(USUAL_CHUNK),
        Ok(Some(text)) => chunk_in(text),
    }
}

pub(crate) fn format(matches: &ArgMatches<'_>) -> Option<Format>
    ensures { result ≡ format_by (values_in matches.now) }
{
    match value(matches, OptionName::Format) {
        Err(_) => None,
        Ok(None) => Some(Format::Csv),
        Ok(Some(text)) => format_in(text),
    }
}

pub(crate) fn part(matches: &ArgMatches<'_>) -> Option<WorldPart>
    ensures { result ≡ part_by (values_in matches.now) }
{
    match value(matches, OptionName::Part) {
        Err(_) => None,
        Ok(None) => None,
        Ok(Some(text)) => part_in(text),
    }
}

fn part_in(text: &str) -> Option<WorldPart>
    ensures { result ≡ part_in text.now }
{
    match text {
        "sessions" => Some(WorldPart::Sessions),
        "assets" => Some(WorldPart::Assets),
        "bars" => Some(WorldPart::Bars),
        "labels" => Some(WorldPart::Labels),
        "numbers" => Some(WorldPart::Numbers),
        "splits" => Some(WorldPart::Splits),
        "mergers" => Some(WorldPart::Mergers),
        "dividends" => Some(WorldPart::Dividends),
        "revisions" => Some(WorldPart::Revisions),
        _ => None,
    }
}

fn stats(matches: &ArgMatches<'_>) -> Option<bool>
    ensures { result ≡ stats_by (values_in matches.now) }
{
    match value(matches, OptionName::Stats) {
        Err(_) => None,
        Ok(value) => Some(value.is_some()),
    }
}

fn as_of<'a>(matches: &ArgMatches<'a>) -> Option<Option<DateWord<'a>>>
    ensures { MatchOption result (as_of_by (values_in matches.now) ≡ None)
        (λ d. as_of_by (values_in matches.now) ≡ Some (option_map dated_of d)) }
{
    match value(matches, OptionName::AsOf) {
        Err(_) => None,
        Ok(None) => Some(None),
        Ok(Some(text)) => Some(Some(date_in(text)?)),
    }
}

fn format_in(text: &str) -> Option<Format>
    ensures { result ≡ format_in text.now }
{
    match text {
        "csv" => Some(Format::Csv),
        "fixed" => Some(Format::Fixed),
        "cells" => Some(Format::Cells),
        _ => None,
    }
}

fn chunk_in(text: &str) -> Option<u32>
    ensures { result ≡ chunk_in text.now }
{
    // The bytes of a sid are those of any number of 32 bits without sign or leading zeros.
    let number = read_sid(text.as_bytes())?;
    if 1 <= number && number <= MOST_CHUNK {
        Some(number)
    } else {
        None
    }
}

// How many sessions a window has at most.
const MOST_WINDOW: u32 = 1260;

/// How many sessions a window has.
pub(crate) fn window_in(text: &str) -> Option<u32>
    ensures { result ≡ window_in text.now }
{
    // The bytes of a sid are those of any number of 32 bits without sign or leading zeros.
    let number = read_sid(text.as_bytes())?;
    if 1 <= number && number <= MOST_WINDOW {
        Some(number)
    } else {
        None
    }
}

/// The bar column of a name.
pub(crate) fn bar_column_in(text: &str) -> Option<Column>
    ensures { result ≡ bar_column_in text.now }
{
    match text {
        "open" => Some(Column::OpenPrice),
        "high" => Some(Column::High),
        "low" => Some(Column::Low),
        "close" => Some(Column::Close),
        "volume" => Some(Column::Volume),
        _ => None,
    }
}

pub(crate) fn date_in<'a>(text: &'a str) -> Option<DateWord<'a>>
    ensures { MatchOption result (dated text.now ≡ None) (λ d. dated text.now ≡ Some (dated_of d)) }
{
    let day = read_day(text.as_bytes())?;
    Some(DateWord { text, day })
}

pub(crate) fn column_in<'a>(text: &'a str) -> Option<&'a str>
    ensures { option_map (λ n. n.now) result ≡ column_in text.now }
{
    if is_name(text.as_bytes()) {
        Some(text)
    } else {
        None
    }
}
