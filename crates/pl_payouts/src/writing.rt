//! The text of the rows of payouts.

ghost use Rattle.std.specs.Prelude.{◌≡◌, ◌<◌, ◌+◌, length, All, IfOk, IsErrOf, OnOk};
ghost use Rattle.pl_outside.specs.Taken.{IsWrittenIn, Writes};
ghost use Rattle.pl_payouts.specs.Payouts.{AreKnown};
ghost use Rattle.pl_payouts.specs.Texts.{payouts_kept, payouts_text};

use crate::Payouts;
use crate::error::PayoutsOut;
use crate::line::line_of;
use crate::ratio::ratio_of;
use pl_bars::Bars;
use pl_calendar::Sessions;
use pl_lifetimes::Assets;
use pl_outside::{Sink, write_bytes};
use std::alloc::Global;

/// Writes the header `record,sid,effective_date,num,den,reason` and a line for each payout in the order of
/// its file, each in one piece: its number, its sid, the seconds from 1970-01-01 to its ex day, and the ratio
/// of its row and no reason, or no ratio and the reason why it has no row. Gives the number of payouts that
/// have a row. The only error is that the sink counted a fault; then a prefix of the text was written. It
/// takes no memory.
pub fn write_payouts<O: Sink>(
    _alloc: Global,
    payouts: &Payouts,
    sessions: &Sessions,
    assets: &Assets,
    bars: &Bars,
    out: &mut O,
) -> Result<u64, PayoutsOut>
    requires known { AreKnown assets.now payouts.now }
    requires cols { All (λ b. b.col < length assets.now) bars.now }
    ensures writes { Writes O.taken O.faults O.sound O.room out.old out.new
        (payouts_text sessions.now assets.now bars.now payouts.now) result }
    ensures pieces { OnOk result (IsWrittenIn O.whole O.calls out.old out.new (1 + length payouts.now)) }
    ensures kept { IfOk result (λ n. n ≡ payouts_kept sessions.now assets.now bars.now payouts.now) }
    ensures memory { ¬ IsErrOf result PayoutsOut.Memory }
{
    write_bytes(out, b"record,sid,effective_date,num,den,reason\n")?;
    let mut kept = 0;
    for i in 0..payouts.len() {
        let payout = payouts.get(i);
        let ratio = ratio_of(&payout, sessions, assets, bars);
        let line = line_of(&payout, &ratio);
        write_bytes(out, line.as_slice())?;
        if ratio.is_ok() {
            kept += 1;
        }
    }
    Ok(kept)
}
