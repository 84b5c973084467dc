//! Bytes to bars.

ghost use Rattle.std.specs.Prelude.{◌≡◌, ◌⊎◌, ◌+◌, ◌*◌, ◌≤◌, ◌++◌, ℕ, List, take, drop, length, Ok, Err, IfOk, IfErr, IfSome, IfNone};
ghost use Rattle.pl_spec.specs.Limits.{most_assets, most_bars, most_sessions};
ghost use Rattle.pl_spec.specs.declared.BarRow.{BarRow};
ghost use Rattle.pl_packed.specs.Fit.{AreKept};
ghost use Rattle.pl_packed.specs.Packed.{known, head, four_bytes, packed};
ghost use Rattle.pl_packed.specs.Reading.{AreRead, IsStop};
ghost use Rattle.pl_packed.specs.Says.{Begins, IsFault, Says};

use crate::bar::{bar_at, words_of};
use crate::error::UnpackError;
use crate::head::{mark, put_days, put_sids};
use crate::order::is_next;
use crate::seal::is_seal;
use crate::sums::Sums;
use crate::words::{four_at, four_bytes};
use crate::{BAR, SEAL};
use pl_bars::{Bars, MOST_BARS};
use pl_calendar::Sessions;
use pl_lifetimes::Assets;
use pl_spec::BarRow;
use std::alloc::Global;

/// The bars of bytes that were packed for these sessions and assets. The error is the first fault in the
/// order of the bytes, or want of memory.
pub fn unpack(
    alloc: Global,
    bytes: &[u8],
    sessions: &Sessions,
    assets: &Assets,
) -> Result<Bars, UnpackError>
    // Whatever the bytes are: the bars that they say, or the first fault.
    ensures exact { Says sessions.now assets.now bytes.now result }
    // Packed bars are read as those bars. Only want of memory may come beside.
    ensures packed { (bars : List BarRow) → AreKept (length assets.now) (length sessions.now) bars
        → bytes.now ≡ packed sessions.now assets.now bars
        → (result ≡ Ok bars) ⊎ (result ≡ Err UnpackError.Memory) }
{
    let _sessions = sessions.len();
    let _cols = assets.len();
    unpacked(alloc, bytes, sessions, assets)
}

fn unpacked(
    alloc: Global,
    bytes: &[u8],
    sessions: &Sessions,
    assets: &Assets,
) -> Result<Bars, UnpackError>
    ensures { Says sessions.now assets.now bytes.now result }
{
    let head = known_head(alloc, bytes, sessions, assets)?;
    unpack_after(alloc, bytes, head, sessions, assets)
}

// The head up to the count, with which the bytes begin.
fn known_head(
    alloc: Global,
    bytes: &[u8],
    sessions: &Sessions,
    assets: &Assets,
) -> Result<Vec<u8>, UnpackError>
    ensures known { IfOk result (λ head. head.items ≡ known sessions.now assets.now) }
    ensures begins { IfOk result (λ head. Begins head.items bytes.now) }
    ensures fault { IfErr result (IsFault sessions.now assets.now bytes.now) }
{
    let mut head = Vec::from_slice(alloc, mark())?;
    if !bytes.starts_with(&head) {
        return Err(UnpackError::NotPacked);
    }
    put_days(&mut head, sessions)?;
    if !bytes.starts_with(&head) {
        return Err(UnpackError::OtherSessions);
    }
    put_sids(&mut head, assets)?;
    if !bytes.starts_with(&head) {
        return Err(UnpackError::OtherAssets);
    }
    Ok(head)
}

// The bars behind that head.
fn unpack_after(
    alloc: Global,
    bytes: &[u8],
    mut head: Vec<u8>,
    sessions: &Sessions,
    assets: &Assets,
) -> Result<Bars, UnpackError>
    requires known { head.items ≡ known sessions.now assets.now }
    requires begins { Begins head.items bytes.now }
    ensures { Says sessions.now assets.now bytes.now result }
{
    let Some(count) = count_behind(bytes, &head) else {
        return Err(UnpackError::BadLength);
    };
    head.extend_from_slice(&four_bytes(count as u32))?;
    read_counted(alloc, &head, behind(bytes, &head), count, sessions, assets)
}

// The count of the bars, which stands behind a front, if there are as many bytes after it as it asks for.
fn count_behind(bytes: &[u8], front: &[u8]) -> Option<usize>
    requires { length front.now ≤ length bytes.now }
    ensures few { IfSome result (λ count. count ≤ most_bars) }
    ensures there { IfSome result (λ count.
        four_bytes count ≡ take 4 (drop (length front.now) bytes.now)) }
    ensures room { IfSome result (λ count.
        length bytes.now ≡ length front.now + (4 + (48 * count + 48))) }
    ensures none { IfNone result ((count : ℕ) → count ≤ most_bars
        → four_bytes count ≡ take 4 (drop (length front.now) bytes.now)
        → ¬ (length bytes.now ≡ length front.now + (4 + (48 * count + 48)))) }
{
    let at = front.len();
    let rest = bytes.len() - at;
    if rest < 4 {
        return None;
    }
    let count = four_at(bytes, at) as usize;
    if count > MOST_BARS {
        return None;
    }
    if rest != 4 + BAR * count + SEAL {
        return None;
    }
    Some(count)
}

fn behind<'b>(bytes: &'b [u8], front: &[u8]) -> &'b [u8]
    requires { length front.now ≤ length bytes.now }
    ensures { result.now ≡ drop (length front.now) bytes.now }
{
    &bytes[front.len()..]
}

// The bars of the bytes behind the head, which has their count.
fn read_counted(
    alloc: Global,
    front: &[u8],
    after: &[u8],
    count: usize,
    sessions: &Sessions,
    assets: &Assets,
) -> Result<Bars, UnpackError>
    requires few { count ≤ most_bars }
    requires front { front.now ≡ head sessions.now assets.now count }
    requires room { length after.now ≡ 48 * count + 48 }
    ensures { (bytes : List ℕ) → bytes ≡ head sessions.now assets.now count ++ after.now
        → Says sessions.now assets.now bytes result }
{
    let read = read_bars(alloc, after, count, assets.len(), sessions.len())?;
    if !is_seal(&after[BAR * count..], front, &read.sums) {
        return Err(UnpackError::Damaged);
    }
    Ok(Bars::from_rows(read.bars))
}

// Bars that were read, and the sums of their words.
#[derive(Drop)]
struct Read {
    bars: Vec<BarRow>,
    sums: Sums,
}

// Reads so many bars.
fn read_bars(
    alloc: Global,
    after: &[u8],
    count: usize,
    cols: usize,
    sessions: usize,
) -> Result<Read, UnpackError>
    requires cols { cols ≤ most_assets }
    requires sessions { sessions ≤ most_sessions }
    requires few { count ≤ most_bars }
    requires room { 48 * count ≤ length after.now }
    ensures read { IfOk result (λ read. AreRead cols sessions read.bars.items read.sums after.now) }
    ensures count { IfOk result (λ read. length read.bars.items ≡ count) }
    ensures fault { IfErr result (IsStop cols sessions count after.now) }
{
    let mut bars = Vec::with_capacity(alloc, count)?;
    let mut sums = Sums::none();
    'bars: for i in 0..count {
        let bar = bar_at(after, BAR * i);
        if !is_next(&bars, &bar, cols, sessions) {
            return Err(UnpackError::BadBar { bar: i as u32 + 1 });
        }
        sums = sums.and_six(&words_of(&bar));
        bars.push(bar)?;
    }
    Ok(Read { bars, sums })
}
