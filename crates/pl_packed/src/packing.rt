//! Bars to bytes.

ghost use Rattle.std.specs.Prelude.{◌≡◌, length, flat_map, All, IfOk};
ghost use Rattle.pl_outside.specs.Taken.{Writes};
ghost use Rattle.pl_packed.specs.Packed.{head, sealed, words_of, words_bytes};
ghost use Rattle.pl_packed.specs.Summed.{AreSums};

use crate::bar::words_of;
use crate::head::{mark, put_days, put_sids};
use crate::seal::write_seal;
use crate::sums::Sums;
use crate::words::{eight_bytes, four_bytes};
use pl_bars::Bars;
use pl_calendar::Sessions;
use pl_fixed::Memory;
use pl_lifetimes::Assets;
use pl_outside::{Failed, Sink, write_bytes};
use std::alloc::Global;

/// The first bytes of packed bars: the mark of the form, the sessions' days, the assets' sids and the number
/// of the bars. The only error is want of memory.
pub fn packed_head(
    alloc: Global,
    sessions: &Sessions,
    assets: &Assets,
    bars: &Bars,
) -> Result<Vec<u8>, Memory>
    ensures { IfOk result (λ v. v.items ≡ head sessions.now assets.now (length bars.now)) }
{
    let mut head = Vec::from_slice(alloc, mark())?;
    put_days(&mut head, sessions)?;
    put_sids(&mut head, assets)?;
    head.extend_from_slice(&four_bytes(bars.len() as u32))?;
    Ok(head)
}

/// Writes packed bars, in pieces of 8 bytes after the head: it, the bars, and the end. With the head of
/// `packed_head` these are the bytes that `unpack` reads. It takes no memory.
pub fn pack<O: Sink>(out: &mut O, head: &[u8], bars: &Bars) -> Result<(), Failed>
    ensures writes { Writes O.taken O.faults O.sound O.room out.old out.new
        (sealed head.now bars.now) result }
    // Each bar has five cells, as its type says; `unpack` asks it of packed bars.
    ensures five { IfOk result (λ _. All (λ b. length b.cells ≡ 5) bars.now) }
{
    write_bytes(out, head)?;
    let sums = write_bars(out, bars)?;
    write_seal(out, head, &sums)
}

// Writes the words of the bars, and gives their sums.
fn write_bars<O: Sink>(out: &mut O, bars: &Bars) -> Result<Sums, Failed>
    ensures writes { Writes O.taken O.faults O.sound O.room out.old out.new
        (words_bytes (flat_map words_of bars.now)) result }
    ensures sums { IfOk result (λ sums. AreSums sums (flat_map words_of bars.now)) }
    ensures five { IfOk result (λ _. All (λ b. length b.cells ≡ 5) bars.now) }
{
    let mut sums = Sums::none();
    'bars: for i in 0..bars.len() {
        let words = words_of(&bars.row(i));
        sums = sums.and_six(&words);
        write_words(out, &words)?;
    }
    Ok(sums)
}

fn write_words<O: Sink>(out: &mut O, words: &[u64]) -> Result<(), Failed>
    ensures { Writes O.taken O.faults O.sound O.room out.old out.new (words_bytes words.now) result }
{
    for word in words {
        write_bytes(out, &eight_bytes(*word))?;
    }
    Ok(())
}
