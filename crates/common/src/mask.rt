//! Masks: sets of images, with one bit for each image.

ghost use Rattle.std.specs.Prelude.{◌≡◌, ◌^◌, ◌<◌, ◌≤◌, ℕ, false, length, slice_index_or, if◌then◌else◌};
ghost use Rattle.common.specs.Masks.{is_member};

use crate::limits::MOST_IMAGES;

/// Returns whether an image is in a mask. Images are numbered from 0 to 7.
#[tactic(auto, unfolding(crate::specs::Masks::is_member))]
pub fn is_member(mask: u8, image: u8) -> bool
    requires { image < MOST_IMAGES }
    ensures { result ≡ is_member mask image }
{
    (mask >> image) % 2 == 1
}

/// Returns a bit as a number.
fn bit(on: bool) -> u8
    ensures is { result ≡ (if on then 1 else 0) }
    ensures small { result ≤ 1 }
{
    if on { 1 } else { 0 }
}

/// Returns the mask of the images for which `members` is true: entry i is for image i. Images after
/// the end of the list aren't in the mask. The list has at most 8 entries.
pub fn mask_of(members: &[bool]) -> u8
    requires { length members.now ≤ MOST_IMAGES }
    // Exactly these images are in the mask.
    ensures each { (i : ℕ) → is_member result i ≡ slice_index_or members.now i false }
    // No other mask has exactly these images.
    ensures only { (mask : ℕ) → mask < 2 ^ 8
        → ((i : ℕ) → is_member mask i ≡ slice_index_or members.now i false) → mask ≡ result }
{
    let mut left = members.len();
    let mut mask = 0;
    while left > 0 {
        left -= 1;
        mask = 2 * mask + bit(members[left]);
    }
    mask
}
