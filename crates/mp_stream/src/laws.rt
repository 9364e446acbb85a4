ghost use Rattle.mp_stream.specs.Appended.{EntriesGrow};

/// With one sample more a series has one window more, and the left entries of the windows that were there stay. Their
/// right entries are the lesser of what they were and of the new window, where it may be compared and has a distance.
/// Nothing stands to the right of the new window.
pub fn entries_grow()
    ensures { EntriesGrow }
{}
