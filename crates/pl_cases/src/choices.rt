//! Texts in which parts are chosen.

use crate::lines::add_piece;
use anyhow::{Context, Result};
use std::alloc::Global;

/// The parts of a choice, as texts.
pub(crate) fn parts_of(alloc: Global, choice: &str) -> Result<Vec<Vec<u8>>> {
    let mut parts = Vec::new(alloc);
    for written in choice.split(" ; ") {
        let mut part = Vec::new(alloc);
        add_piece(&mut part, written)?;
        parts.push(part)?;
    }
    Ok(parts)
}

/// The text with the parts in the place of their numbers in braces.
pub(crate) fn filled(alloc: Global, text: &[u8], parts: &[Vec<u8>]) -> Result<Vec<u8>> {
    let mut filled = Vec::new(alloc);
    let mut taken = 0u8;
    for (place, byte) in text.iter().enumerate() {
        if taken > 0 {
            taken -= 1;
            continue;
        }
        match text.get(place..) {
            Some([b'{', digit @ b'1'..=b'9', b'}', ..]) => {
                let part = parts.get((*digit - b'1') as usize).context("no such part")?;
                filled.extend_from_slice(part)?;
                taken = 2;
            }
            _ => filled.push(*byte)?,
        }
    }
    Ok(filled)
}
