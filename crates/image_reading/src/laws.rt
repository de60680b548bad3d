//! Laws about areas and images, for the crates above. Each function does nothing: its contract is
//! the law.

ghost use Rattle.std.specs.Prelude.{◌≡◌, ◌++◌, ℕ, List, []};
ghost use Rattle.common.specs.Bytes.{IsBytes};
ghost use Rattle.image_reading.specs.Area.{Entry};
ghost use Rattle.image_reading.specs.Image.{BeginsWithImage, Image, IsWellFormed, image_bytes};
ghost use Rattle.image_reading.specs.Reading.{entries_of, rest_of};
ghost use Rattle.image_reading.specs.Walk.{IsWalk};

/// A walk by [`Tlvs`](crate::Tlvs) gives the entries of the area. The area is the bytes of these
/// entries followed by the rest, each entry fits its fields, and the rest doesn't begin with an
/// entry. No other entries and rest have these properties.
pub fn a_walk_gives_the_entries_of_its_area()
    ensures walk { (area : List ℕ) → IsBytes area → IsWalk area (entries_of area) (rest_of area) }
    ensures only { (area : List ℕ) (entries : List Entry) (rest : List ℕ) → IsBytes area
        → IsWalk area entries rest → (entries ≡ entries_of area) × (rest ≡ rest_of area) }
{}

/// No image begins another: if the bytes of one begin with those of another, the two are the same.
pub fn no_image_begins_another()
    ensures { (first second : Image) (more : List ℕ) → IsWellFormed first → IsWellFormed second
        → image_bytes second ≡ image_bytes first ++ more → (first ≡ second) × (more ≡ []) }
{}

/// At most one front of bytes, such as those of a slot, is an image: if two fronts are images, they
/// are the same.
pub fn one_front_is_an_image()
    ensures { (first second behind other : List ℕ) (one two : Image)
        → first ++ behind ≡ second ++ other
        → BeginsWithImage first one [] → BeginsWithImage second two []
        → (first ≡ second) × (one ≡ two) }
{}
