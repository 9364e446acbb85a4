//! What holds of lines and fields, as the contracts of functions that do nothing.

ghost use Rattle.mp_bytes.specs.Laws.{LinesAreTheInput, FieldsHoldNoBlank, FieldsAreFoundAgain};

/// The lines of an input, each with its LF, are the input, where no LF is missing at its end.
pub fn lines_are_the_input()
    ensures { LinesAreTheInput }
{}

/// No field is empty or holds a blank, and fields that are joined by spaces are found again.
pub fn fields_are_found_again()
    ensures no_blank { FieldsHoldNoBlank }
    ensures again { FieldsAreFoundAgain }
{}
