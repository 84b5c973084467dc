//! The name and the date that were read last. In most files a record has the name of the record before it,
//! and in files by day its date, so these are looked at before a name is tested or a date is read.

ghost use Rattle.std.specs.Prelude.{◌≡◌, ◌≤◌, take, true, false, IsTrue};
ghost use Rattle.pl_spec.specs.Dates.{date_in};
ghost use Rattle.pl_spec.specs.Names.{is_name};

use pl_fixed::{LastDate, is_name};

// A text that is a name.
#[derive(Clone, Copy)]
struct KnownName {
    text: [u8; 32],
    len: usize,
    ghost within: { len ≤ 32 },
    ghost named: { is_name (take len text) ≡ true },
}

impl KnownName {
    fn new(name: &[u8]) -> Option<KnownName>
        requires { is_name name.now ≡ true }
    {
        let len = name.len();
        if len > 32 {
            return None;
        }
        let mut text = [0; 32];
        text[..len].copy_from_slice(name);
        Some(KnownName { text, len })
    }

    fn is(&self, name: &[u8]) -> bool
        ensures { IsTrue result → is_name name.now ≡ true }
    {
        name == &self.text[..self.len]
    }
}

#[derive(Clone, Copy)]
pub(crate) struct Last {
    name: Option<KnownName>,
    date: LastDate,
}

impl Last {
    // Nothing yet.
    pub(crate) fn new() -> Last {
        Last {
            name: None,
            date: LastDate::new(),
        }
    }

    // Whether a text is a name, which is then the last one.
    pub(crate) fn is_name(&mut self, text: &[u8]) -> bool
        ensures exact { result ≡ is_name text.now }
        ensures stays { result ≡ false → self.new ≡ self.old }
    {
        if let Some(name) = &self.name {
            if name.is(text) {
                return true;
            }
        }
        if !is_name(text) {
            return false;
        }
        self.name = KnownName::new(text);
        true
    }

    // The day of a date, which is then the last one.
    pub(crate) fn day_of(&mut self, text: &[u8]) -> Option<i32>
        ensures { result ≡ date_in text.now }
    {
        self.date.day_of(text)
    }
}
