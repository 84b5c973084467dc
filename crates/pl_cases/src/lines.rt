//! The lines of texts.

use anyhow::{Context, Result, bail};
use std::alloc::Global;

/// Adds a line as it is written in a case file, with its line end unless it ends with `\`.
pub(crate) fn add_line(bytes: &mut Vec<u8>, line: &str) -> Result<()> {
    match line.strip_suffix('\\') {
        Some(line) => add_piece(bytes, line),
        None => {
            add_piece(bytes, line)?;
            bytes.push(b'\n')?;
            Ok(())
        }
    }
}

/// Adds what is written: `\r` and `\n` are those bytes, and `\x20` is the byte of those digits.
pub(crate) fn add_piece(bytes: &mut Vec<u8>, written: &str) -> Result<()> {
    for (number, piece) in written.split('\\').enumerate() {
        if number == 0 {
            bytes.extend_from_slice(piece.as_bytes())?;
        } else {
            add_escaped(bytes, piece.as_bytes())?;
        }
    }
    Ok(())
}

fn add_escaped(bytes: &mut Vec<u8>, piece: &[u8]) -> Result<()> {
    let rest = match piece {
        [b'r', rest @ ..] => {
            bytes.push(b'\r')?;
            rest
        }
        [b'n', rest @ ..] => {
            bytes.push(b'\n')?;
            rest
        }
        [b'x', high, low, rest @ ..] => {
            let high = digit(*high).context("no byte")?;
            let low = digit(*low).context("no byte")?;
            bytes.push(high << 4 | low)?;
            rest
        }
        _ => bail!("no byte"),
    };
    bytes.extend_from_slice(rest)?;
    Ok(())
}

fn digit(byte: u8) -> Option<u8> {
    match byte {
        b'0'..=b'9' => Some(byte - b'0'),
        b'a'..=b'f' => Some(byte - b'a' + 10),
        _ => None,
    }
}

/// The words of a text, with a space between them.
pub(crate) fn words_of(alloc: Global, text: &str) -> Result<Vec<String>> {
    let mut words = Vec::new(alloc);
    for word in text.split(' ') {
        let mut bytes = Vec::new(alloc);
        add_piece(&mut bytes, word)?;
        words.push(String::from_utf8_lossy(alloc, &bytes)?)?;
    }
    Ok(words)
}
