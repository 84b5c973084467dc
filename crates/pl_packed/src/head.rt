//! The head of packed bars: what they were judged against.

ghost use Rattle.std.specs.Prelude.{◌≡◌, ◌++◌, IfOk};
ghost use Rattle.pl_packed.specs.Packed.{mark, days_bytes, sids_bytes};

use crate::words::four_bytes;
use pl_calendar::Sessions;
use pl_fixed::Memory;
use pl_lifetimes::Assets;

// The form and its version. No text begins with its first byte.
pub(crate) fn mark() -> &'static [u8]
    ensures { result.now ≡ mark }
{
    b"\x89bars 1\n"
}

// Puts the days of the sessions behind what is there.
pub(crate) fn put_days(head: &mut Vec<u8>, sessions: &Sessions) -> Result<(), Memory>
    ensures { IfOk result (λ _. head.new.items ≡ head.old.items ++ days_bytes sessions.now) }
{
    let count = sessions.len();
    head.extend_from_slice(&four_bytes(count as u32))?;
    'days: for i in 0..count {
        head.extend_from_slice(&four_bytes(sessions.day(i).cast_unsigned()))?;
    }
    Ok(())
}

// Puts the sids of the assets behind what is there.
pub(crate) fn put_sids(head: &mut Vec<u8>, assets: &Assets) -> Result<(), Memory>
    ensures { IfOk result (λ _. head.new.items ≡ head.old.items ++ sids_bytes assets.now) }
{
    let count = assets.len();
    head.extend_from_slice(&four_bytes(count as u32))?;
    'sids: for i in 0..count {
        head.extend_from_slice(&four_bytes(assets.row(i).sid))?;
    }
    Ok(())
}
