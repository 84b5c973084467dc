//! The files of a shelf in memory.

ghost use Rattle.std.specs.Prelude.{◌≡◌, ℕ, List, Some, OnOk, OnErr, if◌then◌else◌, map, bytes_eq, string_bytes, position};
ghost use Rattle.pl_outside.specs.HeldFiles.{has_name, shown};
ghost use Rattle.pl_outside.specs.ShelfState.{held};

use crate::faults::Memory;

/// A name with its bytes.
#[derive(Drop)]
pub struct File {
    pub name: String,
    pub bytes: Vec<u8>,
}

/// The place of the first file of that name, from 0; `None` where there is none.
pub fn place_of(files: &[File], name: &str) -> Option<usize>
    ensures { result ≡ position (has_name name.now) files.now }
{
    files.iter().position(|file| file.name.as_str() == name)
}

/// Puts a file in the place of the one that has its name, or after all others. The only error is want of
/// memory, and after it the files are as before.
pub fn put_file(files: &mut Vec<File>, name: String, bytes: Vec<u8>) -> Result<(), Memory>
    ensures held { OnOk result ((other : List ℕ) → held (map shown files.new.items) other
        ≡ (if bytes_eq (string_bytes name) other then Some bytes.items else held
        (map shown files.old.items) other)) }
    ensures err { OnErr result (files.new.items ≡ files.old.items) }
{
    let place = place_of(files, &name);
    let file = File { name, bytes };
    match place {
        Some(place) => files[place] = file,
        None => files.push(file)?,
    }
    Ok(())
}
