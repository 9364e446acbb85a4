//! The values of a field.

ghost use Rattle.std.specs.Prelude.{◌≡◌, position, Some, option_map};
ghost use Rattle.std.specs.Iterator.{YieldsFirstRef, item_count};
ghost use Rattle.mp_bytes.specs.Values.{is_comma, values_left};

/// The values of a field: what stands between its commas, before the first and behind the last. A value may be empty,
/// and a field has at least one.
#[derive(Clone, Copy, Debug)]
pub struct Values<'a> {
    /// The text of the values that are left, none behind the last one.
    pub left: Option<&'a [u8]>,
}

impl<'a> Values<'a> {
    /// All values of a field.
    pub fn of(field: &'a [u8]) -> Values<'a>
        ensures { values_left (option_map (λ text. text.now) result.left) ≡ values_left (Some field.now) }
    {
        Values { left: Some(field) }
    }
}

impl<'a> Iterator for Values<'a> {
    type Item = &'a [u8];

    ghost next_gives = { YieldsFirstRef (λ values. values_left (option_map (λ text. text.now) values.left)) };

    ghost remaining = { item_count (λ values. values_left (option_map (λ text. text.now) values.left)) };

    fn next(&mut self) -> Option<&'a [u8]> {
        let text = self.left?;
        match comma_in(text) {
            Some(at) => {
                self.left = Some(&text[at + 1..]);
                Some(&text[..at])
            }
            None => {
                self.left = None;
                Some(text)
            }
        }
    }
}

/// Where the first comma of a text stands.
fn comma_in(text: &[u8]) -> Option<usize>
    ensures { result ≡ position is_comma text.now }
{
    text.iter().position(|byte| *byte == b',')
}
