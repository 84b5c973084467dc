//! The member `age`: how long ago a number beside bars was known.
ghost use Rattle.std.specs.Prelude.{◌≡◌, ◌∷◌, [], option_map, OnErr, IfOk, Err};
ghost use Rattle.pl_terms.specs.Kinds.{kind_of};
ghost use Rattle.pl_terms.specs.Nodes.{interned};
ghost use Rattle.pl_check.specs.Typed as spec;
ghost use Rattle.pl_check.specs.Values as values;
ghost use Rattle.pl_check.specs.Made.{terms_of};
ghost use Rattle.pl_check.specs.Seen.{value_of, all_written};
ghost use Rattle.pl_check.specs.Answers.{Finds};
ghost use Rattle.pl_check.specs.Standing.{IsFactor, IsInGraph, WrittenAreInGraph, IsSound};
ghost use Rattle.pl_check.specs.declared.operation.Parameter.TheVariants.{Name};

use crate::expressions::called_behind;
use crate::fault::CheckError;
use crate::operation::{Operation, Parameter};
use crate::terms::Terms;
use crate::value::{Bound, Value, Written};
use pl_syntax::Place;
use pl_terms::{Figure, TermKind, Text};

/// Is it the member that gives the age of a number? It came with version 4.
pub(crate) fn names_age(version: u32, name: &[u8]) -> bool
    ensures { result ≡ spec.names_age version name.now }
{
    version >= 4 && name == b"age".as_slice()
}

// The name of the number that a kind is.
#[tactic(auto, unfolding(pl_terms::specs::Kinds::kind_of))]
fn name_of_kind<'t>(names: &'t [Text], kind: &TermKind) -> Option<&'t [u8]>
    ensures { option_map (λ n. n.now) result ≡ spec.name_of_kind names.now (kind_of kind.now) }
{
    match kind {
        TermKind::Number {
            figure: Figure::Value,
            name,
        } => match names.get(*name as usize) {
            Some(text) => Some(text.bytes()),
            None => None,
        },
        _ => None,
    }
}

// The name of the number that a value is.
fn number_named<'t>(terms: &'t Terms, object: Value) -> Option<&'t [u8]>
    requires { IsInGraph (terms_of terms.now).graph (value_of object) }
    ensures { spec.name_or_none (option_map (λ n. n.now) result)
        ≡ spec.number_named (terms_of terms.now) (value_of object.entry) }
{
    match object {
        Value::Factor { term, .. } => {
            let node = terms.graph.node(term);
            name_of_kind(&terms.names, &node.kind)
        }
        _ => None,
    }
}

// The same, copied.
fn copied_name(terms: &Terms, object: Value) -> Result<Option<Text>, CheckError>
    requires { IsInGraph (terms_of terms.now).graph (value_of object) }
    ensures ok { IfOk result (λ name. spec.name_or_none name
        ≡ spec.number_named (terms_of terms.now) (value_of object.entry)) }
    ensures err { OnErr result (result ≡ Err CheckError.Memory) }
{
    match number_named(terms, object) {
        Some(name) => match Text::new(terms.alloc, name) {
            Ok(text) => Ok(Some(text)),
            Err(_) => Err(CheckError::Memory),
        },
        None => Ok(None),
    }
}

// A factor, which is of no text.
fn kept_factor<'a>(value: Value) -> Value<'a>
    requires { IsFactor (value_of value) }
    ensures { value_of result ≡ value_of value.entry }
{
    match value {
        Value::Factor { term, safe } => Value::Factor { term, safe },
        _ => unreachable!(),
    }
}

// The age of the number of a name, where it is one.
#[tactic(auto, unfolding(crate::specs::Seen::bounds_of))]
fn called_age<'a, 'n>(
    place: Place,
    name: Value<'n>,
    written: &[Written<'n>],
    terms: &mut Terms,
) -> Result<Value<'a>, CheckError>
    requires name { IsInGraph (terms_of terms.old).graph (value_of name) }
    requires written { WrittenAreInGraph (terms_of terms.old).graph (all_written written.now) }
    requires sound { IsSound (terms_of terms.old) }
    ensures { Finds value_of terms.new result (spec.called interned place Operation.Age
        (values.bound Name (value_of name.entry) ∷ []) (all_written written.entry.now) (terms_of terms.old)) }
{
    let mut bound = Vec::new(terms.alloc);
    let parameter = Parameter::Name;
    match bound.push(Bound {
        parameter,
        value: name,
    }) {
        Ok(()) => (),
        Err(_) => return Err(CheckError::Memory),
    }
    match called_behind(place, Operation::Age, &mut bound, written, terms) {
        Ok(age) => Ok(kept_factor(age)),
        Err(error) => Err(error),
    }
}

// The same where there is a name.
fn named_age<'a>(
    place: Place,
    name: &[u8],
    written: &[Written<'a>],
    terms: &mut Terms,
) -> Result<Value<'a>, CheckError>
    requires written { WrittenAreInGraph (terms_of terms.old).graph (all_written written.now) }
    requires sound { IsSound (terms_of terms.old) }
    ensures { Finds value_of terms.new result
        (spec.called interned place Operation.Age (values.bound Name (values.Text name.now) ∷ [])
        (all_written written.entry.now) (terms_of terms.old)) }
{
    called_age(place, Value::Text(name), written, terms)
}

/// The age of a number beside bars.
pub(crate) fn aged<'a>(
    place: Place,
    object: Value<'a>,
    written: &[Written<'a>],
    terms: &mut Terms,
) -> Result<Value<'a>, CheckError>
    requires stands { IsInGraph (terms_of terms.old).graph (value_of object) }
    requires written { WrittenAreInGraph (terms_of terms.old).graph (all_written written.now) }
    requires sound { IsSound (terms_of terms.old) }
    ensures { Finds value_of terms.new result (spec.aged interned place (value_of object.entry)
        (all_written written.entry.now) (terms_of terms.old)) }
{
    match copied_name(terms, object)? {
        Some(name) => named_age(place, name.bytes(), written, terms),
        None => called_age(place, Value::Number(0), written, terms),
    }
}
