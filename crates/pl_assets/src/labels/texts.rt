//! Distinct texts, numbered in the order in which they came.

ghost use Rattle.std.specs.Prelude.{◌≡◌, ◌<◌, ◌≤◌, ◌^◌, [], ◌∷◌, ◌++◌, flat_map, length, take, position, slice_index_or, bytes_eq, IfOk, OnOk, OnErr};
ghost use Rattle.std.specs.List.{list_any, position_or_len};
ghost use Rattle.pl_spec.specs.Lines.{calls_for_quotes, quote, quoted_byte};
ghost use Rattle.pl_assets.specs.Labels.{AreTexts, with_text};

use indexmap::IndexSet;
use std::alloc::{AllocError, Global};
use std::marker::Model;

/// Distinct texts, numbered from 0 in the order in which they came.
#[derive(Debug)]
pub struct Texts {
    set: IndexSet<Vec<u8>>,
}

// One call lets texts go, so that no caller's proof goes into their table.
impl Drop for Texts {
    fn drop(self) {
        let Texts { set: _set } = self;
    }
}

impl Model for Texts {
    ghost use Rattle.std.specs.Prelude.{List, ℕ, map};

    ghost Value = { List (List ℕ) };

    ghost view = { λ t. map (λ v. v.items) t.set.keys };
}

impl Texts {
    /// No texts.
    pub fn new(alloc: Global) -> Texts
        ensures { result ≡ [] }
    {
        Texts {
            set: IndexSet::new(alloc),
        }
    }

    /// How many texts there are.
    pub fn len(&self) -> usize
        ensures { result ≡ length self.now }
    {
        self.set.len()
    }

    /// The number of a text.
    pub fn number_of(&self, text: &[u8]) -> Option<usize>
        ensures { result ≡ position (bytes_eq text.now) self.now }
    {
        self.set.get_index_of(text)
    }

    /// The text of a number.
    pub fn text(&self, number: usize) -> &[u8]
        requires { number < length self.now }
        ensures { result.now ≡ slice_index_or self.now number [] }
    {
        match self.set.get_index(number) {
            Some(text) => text.as_slice(),
            None => unreachable!(),
        }
    }

    /// The number of a text, which is added if it is new.
    pub fn insert(&mut self, text: &[u8]) -> Result<usize, AllocError>
        ensures texts { OnOk result (self.new ≡ with_text self.old text.now) }
        ensures number { IfOk result (λ n. n ≡ position_or_len (bytes_eq text.now) self.old) }
        ensures err { OnErr result (self.new ≡ self.old) }
    {
        if let Some(number) = self.number_of(text) {
            return Ok(number);
        }
        let alloc = *self.set.allocator();
        let owned = Vec::from_slice(alloc, text)?;
        self.add(owned)
    }

    fn add(&mut self, text: Vec<u8>) -> Result<usize, AllocError>
        ensures texts { OnOk result (self.new ≡ with_text self.old text.items) }
        ensures number { IfOk result (λ n. n ≡ position_or_len (bytes_eq text.items) self.old) }
        ensures err { OnErr result (self.new ≡ self.old) }
    {
        let (number, _) = self.set.insert_full(text)?;
        Ok(number)
    }

    // Keeps the first `len` texts.
    pub(crate) fn truncate(&mut self, len: usize)
        ensures { self.new ≡ take len self.old }
    {
        self.set.truncate(len);
    }
}

// Distinct texts of labels, each with the field that csv writes for it.
#[derive(Debug, Drop)]
pub(crate) struct LabelTexts {
    texts: Texts,
    fields: Vec<Vec<u8>>,
}

impl Model for LabelTexts {
    ghost use Rattle.std.specs.Prelude.{◌≡◌, List, ℕ, map};
    ghost use Rattle.pl_spec.specs.Lines.{quote};

    ghost Value = { List (List ℕ) };

    ghost view = { λ t. t.texts };

    ghost invariant = { λ t. map (λ v. v.items) t.fields.items ≡ map quote t.texts };
}

impl LabelTexts {
    // No texts.
    pub(crate) fn new(alloc: Global) -> LabelTexts
        ensures { result ≡ [] }
    {
        LabelTexts {
            texts: Texts::new(alloc),
            fields: Vec::new(alloc),
        }
    }

    // How many texts there are.
    pub(crate) fn len(&self) -> usize
        ensures { result ≡ length self.now }
    {
        self.texts.len()
    }

    // The text of a code.
    pub(crate) fn text(&self, code: usize) -> &[u8]
        requires { code < length self.now }
        ensures { result.now ≡ slice_index_or self.now code [] }
    {
        self.texts.text(code)
    }

    // The text of a code as a field of csv.
    pub(crate) fn field(&self, code: usize) -> &[u8]
        requires { code < length self.now }
        ensures { result.now ≡ quote (slice_index_or self.now code []) }
    {
        self.fields[code].as_slice()
    }

    // The same texts with their codes once more.
    pub(crate) fn copy(&self, alloc: Global) -> Result<LabelTexts, AllocError>
        requires { AreTexts self.now }
        ensures { IfOk result (λ t. t ≡ self.now) }
    {
        let mut texts = LabelTexts::new(alloc);
        for code in 0..self.len() {
            texts.insert(self.text(code))?;
        }
        Ok(texts)
    }

    // The code of a text, which is added if it is new and a code is left.
    pub(crate) fn insert(&mut self, text: &[u8]) -> Result<usize, AllocError>
        requires { length self.old ≤ 2 ^ 32 }
        ensures texts { OnOk result (self.new ≡ with_text self.old text.now) }
        ensures code { IfOk result (λ n. n ≡ position_or_len (bytes_eq text.now) self.old) }
        ensures few { length self.new ≤ 2 ^ 32 }
        ensures err { OnErr result (self.new ≡ self.old) }
    {
        if let Some(code) = self.texts.number_of(text) {
            return Ok(code);
        }
        if self.texts.len() > u32::MAX as usize {
            return Err(AllocError);
        }
        let field = csv_field(*self.fields.allocator(), text)?;
        self.fields.push(field)?;
        match self.texts.insert(text) {
            Ok(code) => Ok(code),
            Err(error) => {
                self.fields.pop();
                Err(error)
            }
        }
    }

    // Keeps the first `len` texts.
    pub(crate) fn truncate(&mut self, len: usize)
        ensures { self.new ≡ take len self.old }
    {
        self.texts.truncate(len);
        self.fields.truncate(len);
    }
}

// The text as a field of csv.
fn csv_field(alloc: Global, text: &[u8]) -> Result<Vec<u8>, AllocError>
    ensures { IfOk result (λ v. v.items ≡ quote text.now) }
{
    if needs_quotes(text) {
        return quoted(alloc, text);
    }
    let field = Vec::from_slice(alloc, text)?;
    Ok(field)
}

// Whether the field stands in quotes.
fn needs_quotes(text: &[u8]) -> bool
    ensures { result ≡ list_any calls_for_quotes text.now }
{
    text.iter().any(|byte| calls_for_quotes(*byte))
}

// Whether a field with this byte does.
fn calls_for_quotes(byte: u8) -> bool
    ensures { result ≡ calls_for_quotes byte }
{
    byte == b',' || byte == b'"' || byte == b'\r' || byte == b'\n'
}

// The text in quotes, each quote in it doubled.
fn quoted(alloc: Global, text: &[u8]) -> Result<Vec<u8>, AllocError>
    ensures { IfOk result (λ v. v.items ≡ 34 ∷ flat_map quoted_byte text.now ++ 34 ∷ []) }
{
    let mut field = Vec::new(alloc);
    field.push(b'"')?;
    for byte in text {
        if *byte == b'"' {
            field.push(b'"')?;
        }
        field.push(*byte)?;
    }
    field.push(b'"')?;
    Ok(field)
}
