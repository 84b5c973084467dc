//! Which keys the rows have that were read.
ghost use Rattle.std.specs.Prelude.{◌≡◌, ◌==◌, ◌++◌, ◌∷◌, [], not, nat_lt, length, IfOk, IsTrue};
ghost use Rattle.std.specs.List.{list_any};
ghost use Rattle.pl_records.specs.Sorted.{AreKeys};
ghost use Rattle.pl_numbers.specs.NumberPlaces.{AllBelow, AreSeen, Rise, key_of};

use crate::rows::{Place, key_of};
use std::alloc::{AllocError, Global};
use std::collections::HashSet;

// The keys of rows. While these rise no key stands twice, and none is kept.
#[derive(Drop)]
pub(crate) struct Seen {
    alloc: Global,
    keys: Option<HashSet<u128>>,
}

impl Seen {
    ghost use Rattle.pl_numbers.specs.declared.rows.Place.{Place};

    // The keys of no rows.
    pub(crate) fn new(alloc: Global) -> Seen
        ensures { AreSeen result.keys [] }
    {
        Seen { alloc, keys: None }
    }

    // Puts the key of the next row beside those of the rows; whether it is new.
    pub(crate) fn insert(&mut self, places: &[Place], key: u128) -> Result<bool, AllocError>
        requires { AreSeen self.old.keys places.now }
        ensures new { IfOk result (λ b. b ≡ not (list_any (λ p. key_of p == key) places.now)) }
        ensures seen { IfOk result (λ b. IsTrue b → (p : Place) → key_of p ≡ key
            → AreSeen self.new.keys (places.now ++ p ∷ [])) }
    {
        if let Some(keys) = &mut self.keys {
            let is_new = keys.insert(key)?;
            return Ok(is_new);
        }
        if is_above(places, key) {
            return Ok(true);
        }
        let mut keys = keys_of(self.alloc, places)?;
        let is_new = keys.insert(key)?;
        self.keys = Some(keys);
        Ok(is_new)
    }
}

// Whether a key is greater than those of rows that rise.
fn is_above(places: &[Place], key: u128) -> bool
    requires { Rise places.now }
    ensures { IsTrue result → AllBelow places.now key }
{
    let count = places.len();
    count == 0 || is_below(&places[count - 1], key)
}

pub(crate) fn is_below(place: &Place, key: u128) -> bool
    ensures { result ≡ nat_lt (key_of place.now) key }
{
    key_of(place) < key
}

// The keys of the rows.
fn keys_of(alloc: Global, places: &[Place]) -> Result<HashSet<u128>, AllocError>
    ensures { IfOk result (λ keys. AreKeys key_of keys places.now) }
{
    let mut keys = HashSet::new(alloc);
    for i in 0..places.len() {
        keys.insert(key_of(&places[i]))?;
    }
    Ok(keys)
}
