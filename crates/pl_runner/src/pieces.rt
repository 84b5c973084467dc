//! The sessions of the chunks.
ghost use Rattle.std.specs.Prelude.{◌≡◌, ◌+◌, ◌≤◌, ◌<◌, ◌^◌};
ghost use Rattle.pl_runner.specs.Chunks as spec;

use pl_exec::Chunk;

/// How many chunks of at most `size` sessions there are from one session to another, both included.
pub(crate) fn chunk_count(from: usize, to: usize, size: usize) -> usize
    requires order { from ≤ to }
    requires fits { to < 2 ^ 32 }
    requires some { 1 ≤ size }
    ensures value { result ≡ spec.chunk_count from to size }
    ensures few { result ≤ to + 1 }
{
    (to - from) / size + 1
}

/// The i-th of them, counted from 0: of `size` sessions, but for the last one, which may be shorter.
pub(crate) fn chunk_at(from: usize, to: usize, size: usize, i: usize) -> Chunk
    requires order { from ≤ to }
    requires fits { to < 2 ^ 32 }
    requires some { 1 ≤ size }
    requires few { size < 2 ^ 32 }
    requires within { i < spec.chunk_count from to size }
    ensures value { result ≡ spec.chunk_at from to size i }
    ensures from { from ≤ result.from }
    ensures order { result.from ≤ result.to }
    ensures to { result.to ≤ to }
{
    let first = from + i * size;
    Chunk {
        from: first,
        to: to.min(first + (size - 1)),
    }
}
