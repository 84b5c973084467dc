//! What a case states.

use crate::choices::{filled, parts_of};
use anyhow::Result;
use std::alloc::{AllocError, Global};

/// A text, under the line that comes before it.
#[derive(Drop)]
pub(crate) struct Text {
    pub(crate) title: String,
    pub(crate) bytes: Vec<u8>,
}

/// A case: its texts, the words of its commands, what is chosen in its texts, the sizes of chunks, the
/// status, and whether its cells are compared.
pub(crate) struct Case {
    name: String,
    texts: Vec<Text>,
    commands: Vec<Vec<String>>,
    choices: Vec<String>,
    chunks: Vec<String>,
    status: u8,
    cells: bool,
}

// One call lets it go, so that no caller's proof goes into its parts.
impl Drop for Case {
    fn drop(self) {
        let Case {
            name: _name,
            texts: _texts,
            commands: _commands,
            choices: _choices,
            chunks: _chunks,
            status: _status,
            cells: _cells,
        } = self;
    }
}

impl Case {
    /// A case that states nothing.
    pub(crate) fn new(alloc: Global) -> Case {
        Case {
            name: String::new(alloc),
            texts: Vec::new(alloc),
            commands: Vec::new(alloc),
            choices: Vec::new(alloc),
            chunks: Vec::new(alloc),
            status: 0,
            cells: false,
        }
    }

    /// A case of another name that states the same; it has no commands and no choices.
    pub(crate) fn copy(&self, alloc: Global, name: &str) -> Result<Case, AllocError> {
        let mut texts = Vec::new(alloc);
        for text in self.texts.iter() {
            texts.push(Text {
                title: String::from_str(alloc, &text.title)?,
                bytes: text.bytes.to_vec(alloc)?,
            })?;
        }
        Ok(Case {
            name: String::from_str(alloc, name)?,
            texts,
            commands: Vec::new(alloc),
            choices: Vec::new(alloc),
            chunks: copy_words(alloc, &self.chunks)?,
            status: self.status,
            cells: self.cells,
        })
    }

    /// The same case with the parts of a choice in its texts; it has no commands and no choices.
    pub(crate) fn chosen(&self, alloc: Global, choice: &str) -> Result<Case> {
        let parts = parts_of(alloc, choice)?;
        let mut chosen = self.copy(alloc, &self.name)?;
        for text in chosen.texts.iter_mut() {
            text.bytes = filled(alloc, &text.bytes, &parts)?;
        }
        Ok(chosen)
    }

    pub(crate) fn name(&self) -> &str {
        &self.name
    }

    pub(crate) fn texts(&self) -> &[Text] {
        &self.texts
    }

    /// Whether there is a text under that title.
    pub(crate) fn has(&self, title: &str) -> bool {
        self.texts.iter().any(|text| text.title.as_str() == title)
    }

    /// The text under that title; nothing where there is none.
    pub(crate) fn text(&self, title: &str) -> &[u8] {
        match self.texts.iter().find(|text| text.title.as_str() == title) {
            Some(text) => &text.bytes,
            None => &[],
        }
    }

    pub(crate) fn commands(&self) -> &[Vec<String>] {
        &self.commands
    }

    pub(crate) fn choices(&self) -> &[String] {
        &self.choices
    }

    pub(crate) fn chunks(&self) -> &[String] {
        &self.chunks
    }

    pub(crate) fn status(&self) -> u8 {
        self.status
    }

    pub(crate) fn cells(&self) -> bool {
        self.cells
    }

    /// Begins the text under that title anew, after all others.
    pub(crate) fn begin_text(&mut self, alloc: Global, title: &str) -> Result<(), AllocError> {
        let place = self
            .texts
            .iter()
            .position(|text| text.title.as_str() == title);
        if let Some(place) = place {
            self.texts.remove(place);
        }
        self.texts.push(Text {
            title: String::from_str(alloc, title)?,
            bytes: Vec::new(alloc),
        })?;
        Ok(())
    }

    /// The text that was begun last.
    pub(crate) fn last_text(&mut self) -> Option<&mut Text> {
        self.texts.last_mut()
    }

    pub(crate) fn add_command(&mut self, words: Vec<String>) -> Result<(), AllocError> {
        self.commands.push(words)?;
        Ok(())
    }

    pub(crate) fn add_choice(&mut self, choice: String) -> Result<(), AllocError> {
        self.choices.push(choice)?;
        Ok(())
    }

    pub(crate) fn set_chunks(&mut self, chunks: Vec<String>) {
        self.chunks = chunks;
    }

    pub(crate) fn set_status(&mut self, status: u8) {
        self.status = status;
    }

    pub(crate) fn set_cells(&mut self, cells: bool) {
        self.cells = cells;
    }
}

/// The same words.
pub(crate) fn copy_words(alloc: Global, words: &[String]) -> Result<Vec<String>, AllocError> {
    let mut copies = Vec::new(alloc);
    for word in words {
        copies.push(String::from_str(alloc, word)?)?;
    }
    Ok(copies)
}
