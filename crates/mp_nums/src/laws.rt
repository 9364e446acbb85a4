//! Laws of `nearer`, each the contract of a function that does nothing.

ghost use Rattle.mp_nums.specs.NearLaws.{IsCommutative, IsAssociative, IsIdempotent, HasUnit};

/// The order of the two doesn't matter.
pub fn nearer_is_commutative()
    ensures { IsCommutative }
{}

/// Of three, it doesn't matter which two come first.
pub fn nearer_is_associative()
    ensures { IsAssociative }
{}

/// The lesser of one twice is that one.
pub fn nearer_is_idempotent()
    ensures { IsIdempotent }
{}

/// `None` changes nothing.
pub fn nearer_has_unit()
    ensures { HasUnit }
{}
