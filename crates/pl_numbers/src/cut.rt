//! The rows that were known by a day.
ghost use Rattle.std.specs.Prelude.{◌≡◌, false, bytes_eq, AllPairs, IfOk};
ghost use Rattle.pl_numbers.specs.NumberPlaces.{places_by};

use crate::rows::{NumberRows, Place};
use pl_assets::Texts;
use std::alloc::{AllocError, Global};

// The rows that were known by a day, with all names, so that each keeps its number.
pub(crate) fn rows_by(alloc: Global, rows: &NumberRows, day: i32) -> Result<NumberRows, AllocError>
    requires { AllPairs (λ x y. bytes_eq x y ≡ false) rows.now.names }
    ensures names { IfOk result (λ t. t.names ≡ rows.now.names) }
    ensures places { IfOk result (λ t. t.places.items ≡ places_by day rows.now.places.items) }
{
    let names = copy_of(alloc, &rows.names)?;
    let places = places_by(alloc, &rows.places, day)?;
    Ok(NumberRows { names, places })
}

fn places_by(alloc: Global, places: &[Place], day: i32) -> Result<Vec<Place>, AllocError>
    ensures { IfOk result (λ v. v.items ≡ places_by day places.now) }
{
    places
        .iter()
        .copied()
        .filter(|place| place.known <= day)
        .collect(alloc)
}

// The same names with their numbers once more.
fn copy_of(alloc: Global, names: &Texts) -> Result<Texts, AllocError>
    requires { AllPairs (λ x y. bytes_eq x y ≡ false) names.now }
    ensures { IfOk result (λ t. t ≡ names.now) }
{
    let mut copy = Texts::new(alloc);
    for number in 0..names.len() {
        copy.insert(names.text(number))?;
    }
    Ok(copy)
}
