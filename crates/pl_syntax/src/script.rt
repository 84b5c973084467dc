//! A script, as it was read.

ghost use Rattle.std.specs.Prelude.{◌≡◌, true, IsTrue};
ghost use Rattle.pl_grammar.specs.Script.{is_known};
ghost use Rattle.pl_grammar.specs.Whole.{are_sound};
ghost use Rattle.pl_syntax.specs.Sound.{is_written};
ghost use Rattle.pl_syntax.specs.Statements.{statement_of, statements_of, head_of};
ghost use Rattle.pl_syntax.specs.Plain.{plain};

use crate::tree::Expr;
use crate::word::Word;
use pl_grammar::Place;

/// A statement. Its place is that of its NAME, or of `screen`.
#[derive(Drop, Debug)]
pub enum Statement {
    Let {
        place: Place,
        name: Word,
        expr: Expr,
    },
    Column {
        place: Place,
        name: Word,
        expr: Expr,
    },
    Screen {
        place: Place,
        expr: Expr,
    },
}

/// What a pipeline file says: its version, and its statements in order. Each can be written: its names,
/// strings and numbers are those of tokens, its canonical text has at most 1,024 tokens, and opens at most
/// 32 constructs inside one another.
#[derive(Debug)]
pub struct Script {
    version: u32,
    statements: Vec<Statement>,
    end: Place,
    ghost known: { is_known version ≡ true },
    ghost sound: { IsTrue (are_sound is_written (statements_of statements.items)) },
}

// One call lets a script go, so that no caller's proof goes into its statements.
impl Drop for Script {
    fn drop(self) {
        let Script {
            version: _version,
            statements: _statements,
            end: _end,
        } = self;
    }
}

impl Script {
    ghost use Rattle.pl_syntax.specs.Scripts.{version_in, statements_in, end_in};

    // The script of the version with these statements, whose file ends at `end`.
    pub(crate) fn new(version: u32, statements: Vec<Statement>, end: Place) -> Script
        requires known { is_known version ≡ true }
        requires sound { IsTrue (are_sound is_written (statements_of statements.items)) }
        ensures version { version_in result ≡ version }
        ensures statements { statements_in result ≡ statements.items }
        ensures end { end_in result ≡ end }
    {
        Script {
            version,
            statements,
            end,
        }
    }

    /// The version of the language that the file names: 1 to 4.
    pub fn version(&self) -> u32
        ensures value { result ≡ version_in self.now }
        ensures known { is_known result ≡ true }
    {
        self.version
    }

    /// Lends the statements, in the order of the file.
    pub fn statements(&self) -> &[Statement]
        ensures value { result.now ≡ statements_in self.now }
        ensures sound { IsTrue (are_sound is_written (statements_of result.now)) }
    {
        self.statements.as_slice()
    }

    /// The place of the end of the file, just past its last byte.
    pub fn end(&self) -> Place
        ensures { result ≡ end_in self.now }
    {
        self.end
    }
}

/// How a statement begins.
#[derive(Drop)]
pub(crate) enum Head {
    Let { place: Place, name: Word },
    Column { place: Place, name: Word },
    Screen { place: Place },
}

// The statement with its expression.
pub(crate) fn stated(head: Head, expr: Expr) -> Statement
    ensures { statement_of result ≡ record { head = head_of head; tree = plain expr } }
{
    match head {
        Head::Let { place, name } => Statement::Let { place, name, expr },
        Head::Column { place, name } => Statement::Column { place, name, expr },
        Head::Screen { place } => Statement::Screen { place, expr },
    }
}
