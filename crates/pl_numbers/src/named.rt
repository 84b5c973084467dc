//! Numbers under a name, whether a row has it or not.
ghost use Rattle.std.specs.Prelude.{◌≡◌, ℕ, ◌+◌, ◌<◌, ◌≤◌, length, pos, position, slice_index_or, bytes_eq, IfSome};
ghost use Rattle.pl_spec.specs.Dates.{IsDay};
ghost use Rattle.pl_spec.specs.Rounding.{IsCell};
ghost use Rattle.pl_numbers.specs.Numbers.{known_on, number_on};

use crate::Numbers;
use pl_calendar::Sessions;
use pl_fixed::MISSING;
use pl_spec::Figure;

impl Numbers {
    /// What is read of a column under a name on a day, in the row that was known last by then; missing where
    /// there is none. `number` is the name's number, as `name_of` gives it.
    pub fn number_under(
        &self,
        figure: Figure,
        name: &[u8],
        number: Option<u32>,
        col: usize,
        day: i32,
    ) -> i64
        requires { number ≡ position (bytes_eq name.now) self.now.names }
        ensures value { result ≡ number_on figure self.now.rows name.now col day }
        ensures cell { IsCell result }
    {
        let _rows = self.len();
        match number {
            Some(number) => self.number_on(figure, number, col, day),
            None => MISSING,
        }
    }

    /// The day from which that row counts, where there is one: the last day up to this one from which a row
    /// of the column under the name was known.
    pub fn known_under(&self, name: &[u8], number: Option<u32>, col: usize, day: i32) -> Option<i32>
        requires { number ≡ position (bytes_eq name.now) self.now.names }
        ensures exact { result ≡ known_on self.now.rows name.now col day }
        ensures day { IfSome result IsDay }
    {
        let _rows = self.len();
        match number {
            Some(number) => self.known_on(number, col, day),
            None => None,
        }
    }

    /// Writes what is read of a column under a name on sessions from the first one on.
    pub fn fill_under(
        &self,
        figure: Figure,
        name: &[u8],
        col: usize,
        sessions: &Sessions,
        first: usize,
        into: &mut [i64],
    )
        requires { first + length into.old ≤ length sessions.now }
        ensures values { (k : ℕ) → k < length into.old → slice_index_or into.new k (pos 0)
            ≡ number_on figure self.now.rows name.now col (slice_index_or sessions.now (first + k) (pos 0)) }
        ensures cells { (k : ℕ) → k < length into.old
            → IsCell (slice_index_or into.new k (pos 0)) }
    {
        let _rows = self.len();
        match self.name_of(name) {
            Some(number) => self.fill(figure, number, col, sessions, first, into),
            None => into.fill(MISSING),
        }
    }
}
