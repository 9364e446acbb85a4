//! Laws of MPdist, each the contract of a function that does nothing.

ghost use Rattle.mp_mpdist.specs.Laws.{MpdistIsAtItsPlace, PlacesHaveOneItem};

/// Where the place lies below the number of distances, more of them than the place says are at most MPdist, and at
/// most as many are less. Where the item at the place has no distance, MPdist is the greatest one. There is none only
/// where no item has a distance.
pub fn mpdist_is_at_its_place()
    ensures { MpdistIsAtItsPlace }
{}

/// One number alone is at a place.
pub fn places_have_one_item()
    ensures { PlacesHaveOneItem }
{}
