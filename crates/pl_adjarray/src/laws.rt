//! What the counts are in a world. The function does nothing: its contract is a law of the words
//! that the calls' contracts cite.

ghost use Rattle.pl_adjarray.specs.Worlds.{CountsAreOfTheWorld, WholeCountsAreOfTheWorld};

/// The steps that a traversal counts up to a session are the pairs, in the world of the parts, of a
/// buffered row and a ratio that changed its cell by that session.
pub fn counts_are_of_the_world()
    ensures counts { CountsAreOfTheWorld }
    ensures whole { WholeCountsAreOfTheWorld }
{}
