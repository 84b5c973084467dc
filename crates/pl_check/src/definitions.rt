//! The names that `let` statements define.
ghost use Rattle.std.specs.Prelude.{◌≡◌, [], ◌∷◌, ◌++◌, None, option_map, OnOk, OnErr};
ghost use Rattle.pl_check.specs.Seen.{value_of, definitions_of};
ghost use Rattle.pl_check.specs.Typed as spec;

use crate::fault::CheckError;
use crate::value::Value;
use indexmap::IndexMap;
use std::alloc::Global;

/// The names defined so far, with what they mean, in the order of their statements.
pub type Definitions<'a> = IndexMap<&'a [u8], Value<'a>>;

/// No names.
#[tactic(auto, unfolding(crate::specs::Seen::definitions_of))]
pub(crate) fn none<'a>(alloc: Global) -> Definitions<'a>
    ensures { definitions_of result ≡ [] }
{
    IndexMap::new(alloc)
}

/// What a name means.
#[tactic(auto, unfolding(crate::specs::Seen::definitions_of))]
pub(crate) fn defined<'a>(definitions: &Definitions<'a>, name: &[u8]) -> Option<Value<'a>>
    ensures { option_map value_of result ≡ spec.defined (definitions_of definitions.entry.now) name.now }
{
    definitions.get(name).copied()
}

/// Defines a new name.
#[tactic(auto, unfolding(crate::specs::Seen::definitions_of))]
pub(crate) fn define<'a>(
    definitions: &mut Definitions<'a>,
    name: &'a [u8],
    value: Value<'a>,
) -> Result<(), CheckError>
    requires { spec.defined (definitions_of definitions.old) name.now ≡ None }
    ensures ok { OnOk result (definitions_of definitions.new
        ≡ definitions_of definitions.old
        ++ record { name = name.entry.now; value = value_of value.entry } ∷ []) }
    ensures err { OnErr result (result ≡ Err CheckError.Memory) }
{
    match definitions.insert(name, value) {
        Ok(_) => Ok(()),
        Err(_) => Err(CheckError::Memory),
    }
}
