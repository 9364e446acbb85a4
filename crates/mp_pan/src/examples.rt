//! A worked example: the definition gives what was computed by hand.

ghost use Rattle.mp_pan.specs.Examples.{PlainRows};

/// Of 1 2 3 1 2 3 at all lengths from 3 to 7.
pub fn plain_rows()
    ensures { PlainRows }
{}
