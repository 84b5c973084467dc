//! Members with parentheses: those of known operations, summaries under masks, and the value of one asset.
ghost use Rattle.std.specs.Prelude.{◌≡◌, ◌++◌, [], option_map, Some, OnOk, OnErr, Err};
ghost use Rattle.pl_terms.specs.Nodes.{interned};
ghost use Rattle.pl_check.specs.Typed as spec;
ghost use Rattle.pl_check.specs.Made.{terms_of};
ghost use Rattle.pl_check.specs.Seen.{value_of, written_of, all_written};
ghost use Rattle.pl_check.specs.Answers.{Finds};
ghost use Rattle.pl_check.specs.Standing.{IsInGraph, WrittenAreInGraph, IsSound};

use crate::expressions::{called_behind, fault, object_of, without_parentheses};
use crate::fault::{CheckError, CheckFault};
use crate::operation::Operation;
use crate::terms::Terms;
use crate::value::{Value, Written};
use pl_syntax::Place;
use pl_terms::Summary;

// A member with parentheses, of an operation that is known.
fn called_on<'a>(
    place: Place,
    operation: Operation,
    object: Value<'a>,
    written: &[Written<'a>],
    terms: &mut Terms,
) -> Result<Value<'a>, CheckError>
    requires stands { IsInGraph (terms_of terms.old).graph (value_of object) }
    requires written { WrittenAreInGraph (terms_of terms.old).graph (all_written written.now) }
    requires sound { IsSound (terms_of terms.old) }
    ensures { Finds value_of terms.new result (spec.method_of interned place (value_of object.entry)
        (all_written written.entry.now) (terms_of terms.old) operation) }
{
    if without_parentheses(operation) {
        return Err(fault(CheckFault::BadArgument, place));
    }
    match object_of(terms.alloc, operation, object) {
        Ok(mut bound) => called_behind(place, operation, &mut bound, written, terms),
        Err(_) => Err(CheckError::Memory),
    }
}

fn names_mask(written: &Written) -> bool
    ensures { result ≡ spec.names_mask (written_of written.entry.now).name }
{
    match written.name {
        Some(name) => name == b"mask".as_slice(),
        None => false,
    }
}

// Is it named, and no mask?
fn names_other(written: &Written) -> bool
    ensures { result ≡ spec.names_other (written_of written.entry.now).name }
{
    match written.name {
        Some(name) => name != b"mask".as_slice(),
        None => false,
    }
}

#[tactic(auto, unfolding(crate::specs::Seen::all_written))]
fn name_others(written: &[Written]) -> bool
    ensures { result ≡ spec.name_others (all_written written.entry.now) }
{
    match written {
        [] => true,
        [first, rest @ ..] => names_other(first) && name_others(rest),
    }
}

// What is written as the mask, once, and before named arguments alone.
#[tactic(auto, unfolding(crate::specs::Seen::all_written))]
fn mask_in<'a>(written: &[Written<'a>]) -> Option<Value<'a>>
    ensures { option_map value_of result ≡ spec.mask_in (all_written written.entry.now) }
{
    match written {
        [] => None,
        [first, rest @ ..] => {
            if !names_mask(first) {
                mask_in(rest)
            } else if name_others(rest) {
                Some(first.value)
            } else {
                None
            }
        }
    }
}

// The mask of a summary.
fn mask_of<'a>(operation: Operation, written: &[Written<'a>]) -> Option<Value<'a>>
    ensures { option_map value_of result ≡ spec.mask_of operation (all_written written.entry.now) }
{
    match operation {
        Operation::Summarize(_) => mask_in(written),
        _ => None,
    }
}

// The arguments but the mask come behind those that are there.
#[tactic(auto, unfolding(crate::specs::Seen::all_written))]
fn push_without_mask<'a>(
    kept: &mut Vec<Written<'a>>,
    written: &[Written<'a>],
) -> Result<(), CheckError>
    ensures ok { OnOk result (all_written kept.new.items
        ≡ all_written kept.old.items ++ spec.without_mask (all_written written.entry.now)) }
    ensures err { OnErr result (result ≡ Err CheckError.Memory) }
{
    match written {
        [] => Ok(()),
        [first, rest @ ..] => {
            if !names_mask(first) {
                match kept.push(*first) {
                    Ok(()) => (),
                    Err(_) => return Err(CheckError::Memory),
                }
            }
            push_without_mask(kept, rest)
        }
    }
}

// The object where the filter is true.
#[tactic(auto, unfolding(crate::specs::Seen::all_written))]
fn kept_where<'a>(
    place: Place,
    object: Value<'a>,
    filter: Value<'a>,
    terms: &mut Terms,
) -> Result<Value<'a>, CheckError>
    requires object { IsInGraph (terms_of terms.old).graph (value_of object) }
    requires filter { IsInGraph (terms_of terms.old).graph (value_of filter) }
    requires sound { IsSound (terms_of terms.old) }
    ensures { Finds value_of terms.new result (spec.kept_where interned place (value_of object.entry)
        (value_of filter.entry) (terms_of terms.old)) }
{
    let given = [Written {
        name: None,
        value: filter,
    }];
    called_on(place, Operation::Where, object, &given, terms)
}

// A summary of what its mask keeps.
fn told_of<'a>(
    place: Place,
    operation: Operation,
    object: Value<'a>,
    mask: Value<'a>,
    written: &[Written<'a>],
    terms: &mut Terms,
) -> Result<Value<'a>, CheckError>
    requires stands { IsInGraph (terms_of terms.old).graph (value_of object) }
    requires mask { IsInGraph (terms_of terms.old).graph (value_of mask) }
    requires written { WrittenAreInGraph (terms_of terms.old).graph (all_written written.now) }
    requires sound { IsSound (terms_of terms.old) }
    ensures { Finds value_of terms.new result (spec.told_of interned (Some (value_of mask.entry)) place
        (value_of object.entry) (all_written written.entry.now) (terms_of terms.old) operation) }
{
    let kept = kept_where(place, object, mask, terms)?;
    let mut others = Vec::new(terms.alloc);
    push_without_mask(&mut others, written)?;
    called_on(place, operation, kept, &others, terms)
}

/// A member with parentheses, of an operation that is known; a summary is that of what its mask keeps.
pub(crate) fn told_method<'a>(
    place: Place,
    operation: Operation,
    object: Value<'a>,
    written: &[Written<'a>],
    terms: &mut Terms,
) -> Result<Value<'a>, CheckError>
    requires stands { IsInGraph (terms_of terms.old).graph (value_of object) }
    requires written { WrittenAreInGraph (terms_of terms.old).graph (all_written written.now) }
    requires sound { IsSound (terms_of terms.old) }
    ensures { Finds value_of terms.new result (spec.told_method interned place (value_of object.entry)
        (all_written written.entry.now) (terms_of terms.old) operation) }
{
    match mask_of(operation, written) {
        Some(mask) => told_of(place, operation, object, mask, written, terms),
        None => called_on(place, operation, object, written, terms),
    }
}

/// Is it the member that gives the value of one asset? It came with version 4.
pub(crate) fn names_one_asset(version: u32, name: &[u8]) -> bool
    ensures { result ≡ spec.names_one_asset version name.now }
{
    version >= 4 && name == b"of".as_slice()
}

// The filter of one asset, as it is written.
#[tactic(auto, unfolding(crate::specs::Seen::bounds_of))]
fn asset_filter<'a>(
    place: Place,
    written: &[Written<'a>],
    terms: &mut Terms,
) -> Result<Value<'a>, CheckError>
    requires written { WrittenAreInGraph (terms_of terms.old).graph (all_written written.now) }
    requires sound { IsSound (terms_of terms.old) }
    ensures { Finds value_of terms.new result (spec.called interned place Operation.StaticSids []
        (all_written written.entry.now) (terms_of terms.old)) }
{
    let mut bound = Vec::new(terms.alloc);
    called_behind(place, Operation::StaticSids, &mut bound, written, terms)
}

// The greatest value of the object where the filter is true.
fn greatest_where<'a>(
    place: Place,
    object: Value<'a>,
    filter: Value<'a>,
    terms: &mut Terms,
) -> Result<Value<'a>, CheckError>
    requires object { IsInGraph (terms_of terms.old).graph (value_of object) }
    requires filter { IsInGraph (terms_of terms.old).graph (value_of filter) }
    requires sound { IsSound (terms_of terms.old) }
    ensures { Finds value_of terms.new result (spec.greatest_where interned place (value_of object.entry)
        (value_of filter.entry) (terms_of terms.old)) }
{
    let kept = kept_where(place, object, filter, terms)?;
    called_on(
        place,
        Operation::Summarize(Summary::Greatest),
        kept,
        &[],
        terms,
    )
}

/// The value of one asset, for all.
pub(crate) fn one_asset<'a>(
    place: Place,
    object: Value<'a>,
    written: &[Written<'a>],
    terms: &mut Terms,
) -> Result<Value<'a>, CheckError>
    requires stands { IsInGraph (terms_of terms.old).graph (value_of object) }
    requires written { WrittenAreInGraph (terms_of terms.old).graph (all_written written.now) }
    requires sound { IsSound (terms_of terms.old) }
    ensures { Finds value_of terms.new result (spec.one_asset interned place (value_of object.entry)
        (all_written written.entry.now) (terms_of terms.old)) }
{
    if written.len() != 1 {
        return Err(fault(CheckFault::BadArgument, place));
    }
    let filter = asset_filter(place, written, terms)?;
    greatest_where(place, object, filter, terms)
}
