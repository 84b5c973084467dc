//! Numbers as bytes, the lowest first.

ghost use Rattle.std.specs.Prelude.{◌≡◌, ◌+◌, ◌≤◌, length, take, drop};
ghost use Rattle.pl_packed.specs.Packed.{four_bytes, eight_bytes};

#[tactic(auto, unfolding(crate::specs::Packed::four_bytes))]
pub(crate) fn four_bytes(number: u32) -> [u8; 4]
    ensures { result ≡ four_bytes number }
{
    number.to_le_bytes()
}

#[tactic(auto, unfolding(crate::specs::Packed::eight_bytes))]
pub(crate) fn eight_bytes(number: u64) -> [u8; 8]
    ensures { result ≡ eight_bytes number }
{
    number.to_le_bytes()
}

// The number whose bytes stand at a place.
pub(crate) fn four_at(bytes: &[u8], at: usize) -> u32
    requires { at + 4 ≤ length bytes.now }
    ensures { four_bytes result ≡ take 4 (drop at bytes.now) }
{
    u32::from_le_bytes([bytes[at], bytes[at + 1], bytes[at + 2], bytes[at + 3]])
}

pub(crate) fn eight_at(bytes: &[u8], at: usize) -> u64
    requires { at + 8 ≤ length bytes.now }
    ensures { eight_bytes result ≡ take 8 (drop at bytes.now) }
{
    u64::from_le_bytes([
        bytes[at],
        bytes[at + 1],
        bytes[at + 2],
        bytes[at + 3],
        bytes[at + 4],
        bytes[at + 5],
        bytes[at + 6],
        bytes[at + 7],
    ])
}
