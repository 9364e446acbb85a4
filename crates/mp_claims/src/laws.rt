//! What holds of the states of cores, each the contract of a function that does nothing.

ghost use Rattle.std.specs.Prelude.{◌≡◌, ℕ, List, Some};
ghost use Rattle.mp_claims.specs.declared.events.Event.{Event};
ghost use Rattle.mp_claims.specs.declared.events.CoreRefusal.{CoreRefusal};
ghost use Rattle.mp_claims.specs.Cores.{CoreState, EachOnce, after, refusal, start};
ghost use Rattle.mp_claims.specs.Laws.{AnySharesMakeTheWhole, RefusesBy, run};

/// Each refusal comes exactly for its cause.
pub fn refusals_have_causes()
    ensures { (state : CoreState) → RefusesBy state }
{}

/// A refused event changes nothing.
pub fn refused_events_change_nothing()
    ensures { (state : CoreState) (event : Event) (why : CoreRefusal) → refusal state event ≡ Some why
        → after state event ≡ state }
{}

/// After any events, each piece below the next number is held by one worker, finished by one, or delivered, and no
/// other piece is.
pub fn pieces_are_once()
    ensures { (pieces workers : ℕ) (events : List Event) → EachOnce (run events (start pieces workers)) }
{}

/// Whichever worker claims and finishes which piece, and in whichever order all of them deliver then, no event is
/// refused, and the total is the merge of the values of all pieces.
pub fn any_shares_make_the_whole()
    ensures { AnySharesMakeTheWhole }
{}
