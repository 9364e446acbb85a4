//! So many fields and no more.

ghost use Rattle.std.specs.Prelude.{◌≡◌, ◌≢◌, ◌∷◌, [], length, MatchOption};
ghost use Rattle.mp_bytes.specs.Fields.{fields_in};

use mp_bytes::Fields;

/// The one field that stands there.
pub(crate) fn one_text(mut fields: Fields<'_>) -> Option<&[u8]>
    ensures { MatchOption result (length (fields_in fields.entry.text.now) ≢ 1)
        (λ text. fields_in fields.entry.text.now ≡ text.now ∷ []) }
{
    let text = fields.next()?;
    match fields.next() {
        None => Some(text),
        Some(_) => None,
    }
}

/// The two fields that stand there.
pub(crate) fn two_texts(mut fields: Fields<'_>) -> Option<(&[u8], &[u8])>
    ensures { MatchOption result (length (fields_in fields.entry.text.now) ≢ 2)
        (λ texts. fields_in fields.entry.text.now ≡ texts.0.now ∷ texts.1.now ∷ []) }
{
    let first = fields.next()?;
    let second = one_text(fields)?;
    Some((first, second))
}

/// The three fields that stand there.
pub(crate) fn three_texts(mut fields: Fields<'_>) -> Option<(&[u8], &[u8], &[u8])>
    ensures { MatchOption result (length (fields_in fields.entry.text.now) ≢ 3)
        (λ texts. fields_in fields.entry.text.now ≡ texts.0.now ∷ texts.1.now ∷ texts.2.now ∷ []) }
{
    let first = fields.next()?;
    let (second, third) = two_texts(fields)?;
    Some((first, second, third))
}

/// The five fields that stand there.
pub(crate) fn five_texts(mut fields: Fields<'_>) -> Option<(&[u8], &[u8], &[u8], &[u8], &[u8])>
    ensures { MatchOption result (length (fields_in fields.entry.text.now) ≢ 5)
        (λ texts. fields_in fields.entry.text.now
        ≡ texts.0.now ∷ texts.1.now ∷ texts.2.now ∷ texts.3.now ∷ texts.4.now ∷ []) }
{
    let first = fields.next()?;
    let second = fields.next()?;
    let (third, fourth, fifth) = three_texts(fields)?;
    Some((first, second, third, fourth, fifth))
}

/// The six fields that stand there.
pub(crate) fn six_texts(
    mut fields: Fields<'_>,
) -> Option<(&[u8], &[u8], &[u8], &[u8], &[u8], &[u8])>
    ensures { MatchOption result (length (fields_in fields.entry.text.now) ≢ 6)
        (λ texts. fields_in fields.entry.text.now
        ≡ texts.0.now ∷ texts.1.now ∷ texts.2.now ∷ texts.3.now ∷ texts.4.now ∷ texts.5.now ∷ []) }
{
    let first = fields.next()?;
    let (second, third, fourth, fifth, sixth) = five_texts(fields)?;
    Some((first, second, third, fourth, fifth, sixth))
}
