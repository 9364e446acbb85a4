//! Lists of refs.

ghost use Rattle.std.specs.Prelude.{◌≡◌, ◌≤◌, [], length, take, is_some, unwrap_or, Some, true, IfSome};
ghost use Rattle.mp_bytes.specs.Fields.{fields_in};
ghost use Rattle.mp_replies.specs.ConsensusCommand.{consensus_fits};
ghost use Rattle.mp_replies.specs.Numbers.{refs};

use crate::numbers::read_ref;
use mp_bytes::Fields;
use mp_replies::Ref;

/// The fewest channels that are compared.
const MIN_REFS: usize = 2;

/// The most channels that are compared.
pub const MAX_REFS: usize = 64;

/// A text whose fields are 2 to 64 refs.
#[derive(Clone, Copy, Debug, PartialEq, Eq)]
pub struct Refs<'a> {
    pub field: &'a [u8],
    ghost counted: { consensus_fits (fields_in field.now) ≡ true },
    ghost tested: { is_some (refs (fields_in field.now)) ≡ true },
}

impl<'a> Refs<'a> {
    /// `None` where one of the fields is no ref.
    pub(crate) fn of(field: &'a [u8]) -> Option<Refs<'a>>
        requires { consensus_fits (fields_in field.now) ≡ true }
        ensures some { is_some result ≡ is_some (refs (fields_in field.now)) }
        ensures field { IfSome result (λ list. list.field.now ≡ field.now) }
    {
        if are_refs(field) {
            Some(Refs { field })
        } else {
            None
        }
    }

    /// How many refs there are.
    pub fn count(self) -> u64
        ensures { result ≡ length (unwrap_or (refs (fields_in self.entry.field.now)) []) }
    {
        let mut count = 0;
        for _ in (Fields { text: self.field }) {
            count += 1;
        }
        count
    }

    /// Puts the refs into the first places of `room`, and answers how many there are. It takes no memory.
    pub fn gather(self, room: &mut [Ref]) -> usize
        requires { MAX_REFS ≤ length room.old }
        ensures count { result ≤ MAX_REFS }
        ensures refs { refs (fields_in self.entry.field.now) ≡ Some (take result room.new) }
    {
        let mut count = 0;
        for text in (Fields { text: self.field }) {
            room[count] = read_ref(text).unwrap();
            count += 1;
        }
        count
    }
}

/// Whether each field of a text is a ref.
fn are_refs(field: &[u8]) -> bool
    ensures { result ≡ is_some (refs (fields_in field.now)) }
{
    for text in (Fields { text: field }) {
        if read_ref(text).is_none() {
            return false;
        }
    }
    true
}

/// Whether a text has 2 to 64 fields.
pub(crate) fn is_right_count(field: &[u8]) -> bool
    ensures { result ≡ consensus_fits (fields_in field.now) }
{
    let mut count = 0;
    for _ in (Fields { text: field }) {
        if count == MAX_REFS {
            return false;
        }
        count += 1;
    }
    count >= MIN_REFS
}
