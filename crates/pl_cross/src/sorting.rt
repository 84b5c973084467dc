//! The assets of a group in order, as far as a section needs it.
ghost use Rattle.std.specs.Prelude.{◌≡◌, ◌≢◌, ◌<◌, ◌≤◌, ℕ, IsPermutation, length, get_or};
ghost use Rattle.pl_cross.specs.Listing.{HaveOwnPlaces, IsGroup, IsNth, is_before};

use crate::listing::Listed;

/// By value, then by place.
pub(crate) fn sort(group: &mut [Listed])
    requires { HaveOwnPlaces group.old }
    ensures same { IsPermutation group.old group.new }
    ensures order { IsGroup group.new }
{
    group.sort_unstable();
}

/// Whether one asset comes before another.
pub(crate) fn precedes(asset: Listed, other: Listed) -> bool
    ensures { result ≡ is_before other asset }
{
    asset.value < other.value || asset.value == other.value && asset.place < other.place
}

/// The asset that a sort would put to a place, which is found in a copy without one.
pub(crate) fn nth(group: &[Listed], scratch: &mut [Listed], place: usize) -> Listed
    requires place { place < length group.now }
    requires own { HaveOwnPlaces group.now }
    requires room { length group.now ≤ length scratch.old }
    ensures { IsNth group.now place result }
{
    let copy = &mut scratch[..group.len()];
    copy.copy_from_slice(group);
    let (_, asset, _) = copy.select_nth_unstable(place);
    *asset
}

/// The place after the equal values that begin at `start`.
pub(crate) fn end_of_run(group: &[Listed], start: usize) -> usize
    requires { start < length group.now }
    ensures some { start < result }
    ensures within { result ≤ length group.now }
    ensures same { (i : ℕ) (d : Listed) → start ≤ i → i < result
        → (get_or group.now i d).value ≡ (get_or group.now start d).value }
    ensures other { (d : Listed) → result < length group.now
        → (get_or group.now result d).value ≢ (get_or group.now start d).value }
{
    let value = group[start].value;
    let mut end = start + 1;
    while end < group.len() && group[end].value == value {
        end += 1;
    }
    end
}
