//! The end of packed bars: the sums, and the digest of the head and the sums.

ghost use Rattle.std.specs.Prelude.{◌≡◌, ◌↔◌, ◌++◌, length, IsTrue};
ghost use Rattle.sha2.specs.Sha256.{sha256};
ghost use Rattle.pl_outside.specs.Taken.{Writes};
ghost use Rattle.pl_packed.specs.Packed.{seal};
ghost use Rattle.pl_packed.specs.Summed.{bytes_of};

use crate::WORD;
use crate::sums::Sums;
use crate::words::eight_bytes;
use pl_outside::{Failed, Sink, write_bytes};
use sha2::{Digest, Sha256};

fn digest(head: &[u8], sums: &Sums) -> [u8; 32]
    ensures { result ≡ sha256 (head.now ++ bytes_of sums.now) }
{
    let mut hasher = Sha256::new();
    hasher.update(head);
    hasher.update(eight_bytes(sums.plain));
    hasher.update(eight_bytes(sums.weighed));
    hasher.finalize()
}

// Whether the bytes are the end after this head and bars with these sums.
pub(crate) fn is_seal(bytes: &[u8], head: &[u8], sums: &Sums) -> bool
    requires { length bytes.now ≡ 48 }
    ensures { IsTrue result ↔ (bytes.now ≡ seal head.now (bytes_of sums.now)) }
{
    let (front, end) = bytes.split_at(2 * WORD);
    let (plain, weighed) = front.split_at(WORD);
    if !are_same(plain, &eight_bytes(sums.plain)) {
        return false;
    }
    if !are_same(weighed, &eight_bytes(sums.weighed)) {
        return false;
    }
    are_same(end, &digest(head, sums))
}

fn are_same(a: &[u8], b: &[u8]) -> bool
    ensures { IsTrue result ↔ (a.now ≡ b.now) }
{
    a == b
}

// Writes that end.
pub(crate) fn write_seal<O: Sink>(out: &mut O, head: &[u8], sums: &Sums) -> Result<(), Failed>
    ensures { Writes O.taken O.faults O.sound O.room out.old out.new
        (seal head.now (bytes_of sums.now)) result }
{
    write_bytes(out, &eight_bytes(sums.plain))?;
    write_bytes(out, &eight_bytes(sums.weighed))?;
    write_bytes(out, &digest(head, sums))
}
