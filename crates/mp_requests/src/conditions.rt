//! Why a report is refused.

ghost use Rattle.std.specs.Prelude.{◌≡◌, ◌+◌, ◌≤◌, ◌<◌, List, ◌∷◌, ◌++◌, [], All, length, IfNone, None};
ghost use Rattle.std.specs.Bool.{OnFalse};
ghost use Rattle.mp_replies.specs.Conditions.{kept_slot, lazy_slot, no_channel, no_lazy_slot, no_slot, no_window};
ghost use Rattle.mp_replies.specs.Conditions.{ref_conditions, refs_conditions, some_absent, some_closed, some_kept};
ghost use Rattle.mp_replies.specs.Conditions.{some_lazy};
ghost use Rattle.mp_replies.specs.Band.{is_dropped as is_dropped_in};
ghost use Rattle.mp_replies.specs.EntryCommand.{entry_conditions, is_absent as is_absent_in};
ghost use Rattle.mp_replies.specs.MatchCommand.{match_conditions};
ghost use Rattle.mp_replies.specs.MultiCommand.{multi_conditions};
ghost use Rattle.mp_replies.specs.State.{Store, keep_at, series_at};
ghost use Rattle.mp_requests.specs.Answering.{IsCause};
ghost use Rattle.mp_requests.specs.Requests.{IsLazySlot, IsLive, IsNamed, IsWindow};
ghost use Rattle.mp_stores.specs.Stores.{AreChannels, IsChannel, IsOpenSlot, StandFor, channel_series, keep_of};
ghost use Rattle.mp_stores.specs.Stores.{slot_at, streams_at};

use mp_replies::{Cause, Ref};
use mp_series::windows;
use mp_stores::{SLOTS, Stores};
use mp_stream::Kept;

/// Why a ref names no channel of an open slot, if it doesn't.
pub(crate) fn ref_cause(stores: &Stores, at: Ref) -> Option<Cause>
    ensures cause { IsCause stores.now (λ stands. ref_conditions stands at) result }
    ensures channel { IfNone result (IsChannel stores.now at) }
{
    let count = stores.count(at.slot);
    if count == 0 {
        Some(Cause::Slot)
    } else if stores.is_kept(at.slot) {
        Some(Cause::Kept)
    } else if stores.is_lazy(at.slot) {
        Some(Cause::Lazy)
    } else if count <= at.channel {
        Some(Cause::Channel)
    } else {
        None
    }
}

/// Why a ref names no channel of an open or a kept slot, if it doesn't.
pub(crate) fn any_ref_cause(stores: &Stores, at: Ref) -> Option<Cause>
    ensures cause { IsCause stores.now
        (λ stands. no_slot stands at.slot ∷ lazy_slot stands at.slot ∷ no_channel stands at ∷ []) result }
    ensures named { IfNone result (IsNamed stores.now at) }
{
    let count = stores.count(at.slot);
    if count == 0 {
        Some(Cause::Slot)
    } else if stores.is_lazy(at.slot) {
        Some(Cause::Lazy)
    } else if count <= at.channel {
        Some(Cause::Channel)
    } else {
        None
    }
}

/// Why a slot isn't one whose profile is made in parts, if it isn't.
pub fn part_cause(stores: &Stores, slot: u64) -> Option<Cause>
    ensures cause { IsCause stores.now
        (λ stands. no_slot stands slot ∷ kept_slot stands slot ∷ no_lazy_slot stands slot ∷ []) result }
    ensures lazy { IfNone result (IsLazySlot stores.now slot) }
{
    if stores.count(slot) == 0 {
        Some(Cause::Slot)
    } else if stores.is_kept(slot) {
        Some(Cause::Kept)
    } else if stores.is_lazy(slot) {
        None
    } else {
        Some(Cause::Lazy)
    }
}

/// Why some refs name no channels of open slots, if they don't: one of them a closed slot, or else one of them a kept
/// slot, or else one of them a lazy slot, or else one of them no channel of its slot.
pub(crate) fn refs_cause(stores: &Stores, refs: &[Ref]) -> Option<Cause>
    ensures cause { IsCause stores.now (λ stands. refs_conditions stands refs.now) result }
    ensures channels { IfNone result (All (IsChannel stores.now) refs.now) }
{
    if is_some_closed(stores, refs) {
        return Some(Cause::Slot);
    }
    if is_some_kept(stores, refs) {
        return Some(Cause::Kept);
    }
    if is_some_lazy(stores, refs) {
        return Some(Cause::Lazy);
    }
    if is_some_absent(stores, refs) {
        return Some(Cause::Channel);
    }
    None
}

/// Whether the slot of one of them is a kept one.
fn is_some_kept(stores: &Stores, refs: &[Ref]) -> bool
    ensures kept { (stands : List Store) → StandFor stores.now stands → result ≡ some_kept stands refs.now }
    ensures all { OnFalse result (All (λ at. keep_of (slot_at stores.now at.slot) ≡ None) refs.now) }
{
    for at in refs {
        if stores.is_kept(at.slot) {
            return true;
        }
    }
    false
}

/// Whether the profile of the slot of one of them is made in parts.
fn is_some_lazy(stores: &Stores, refs: &[Ref]) -> bool
    ensures lazy { (stands : List Store) → StandFor stores.now stands → result ≡ some_lazy stands refs.now }
    ensures open { OnFalse result (All (λ at. keep_of (slot_at stores.now at.slot) ≡ None) refs.now
        → All (IsOpenSlot stores.now) refs.now) }
{
    for at in refs {
        if stores.is_lazy(at.slot) {
            return true;
        }
    }
    false
}

/// Whether the slot of one of them is closed.
fn is_some_closed(stores: &Stores, refs: &[Ref]) -> bool
    ensures { (stands : List Store) → StandFor stores.now stands → result ≡ some_closed stands refs.now }
{
    for at in refs {
        if stores.count(at.slot) == 0 {
            return true;
        }
    }
    false
}

/// Whether one of them names a channel that its slot hasn't.
fn is_some_absent(stores: &Stores, refs: &[Ref]) -> bool
    ensures absent { (stands : List Store) → StandFor stores.now stands → result ≡ some_absent stands refs.now }
    ensures channels { OnFalse result (All (IsOpenSlot stores.now) refs.now → All (IsChannel stores.now) refs.now) }
{
    for at in refs {
        if stores.count(at.slot) <= at.channel {
            return true;
        }
    }
    false
}

/// Why a ref and a start name no window, if they don't.
pub(crate) fn window_cause(stores: &Stores, at: Ref, start: u64) -> Option<Cause>
    ensures cause { IsCause stores.now
        (λ stands. ref_conditions stands at ++ no_window stores.now.m stands at start ∷ []) result }
    ensures channel { IfNone result (IsChannel stores.now at) }
    ensures window { IfNone result (start + stores.now.m ≤ length (channel_series stores.now at)) }
{
    if let Some(cause) = ref_cause(stores, at) {
        return Some(cause);
    }
    if windows(stores.channel_len(at), stores.window_len()) <= start {
        Some(Cause::Index)
    } else {
        None
    }
}

/// Why a ref and a start name no entry of a profile, if they don't. In a kept slot the live windows have one.
pub(crate) fn entry_cause(stores: &Stores, at: Ref, start: u64) -> Option<Cause>
    ensures cause { IsCause stores.now (λ stands. entry_conditions stores.now.m stands at start) result }
    ensures window { IfNone result (IsWindow stores.now at start) }
{
    if let Some(cause) = any_ref_cause(stores, at) {
        return Some(cause);
    }
    if is_absent(stores, at, start) {
        Some(Cause::Index)
    } else {
        None
    }
}

/// Whether a channel has no window that starts there, or in a kept slot no live one.
fn is_absent(stores: &Stores, at: Ref, start: u64) -> bool
    requires { IsNamed stores.now at }
    ensures absent { (stands : List Store) → StandFor stores.now stands
        → result ≡ is_absent_in (keep_at stands at.slot) stores.now.m (series_at stands at) start }
    ensures window { OnFalse result (IsWindow stores.now at start) }
{
    match stores.kept(at.slot) {
        Some(kept) => is_dropped(kept, start),
        None => windows(stores.channel_len(at), stores.window_len()) <= start,
    }
}

/// Whether no live window starts there.
fn is_dropped(kept: &Kept, start: u64) -> bool
    ensures dropped { result ≡ is_dropped_in kept.now.keep kept.now.m kept.now.count start }
    ensures live { OnFalse result (IsLive kept.now start) }
{
    let first = kept.first();
    start < first || kept.live() <= start - first
}

/// Why a match is refused, if it is: its refs, the start of the pattern's window, or a sample that this window lacks.
pub(crate) fn match_cause(stores: &Stores, at: Ref, query: Ref, start: u64) -> Option<Cause>
    ensures cause { IsCause stores.now (λ stands. match_conditions stores.now.m stands at query start) result }
    ensures channels { IfNone result (All (IsChannel stores.now) (at ∷ query ∷ [])) }
    ensures window { IfNone result (start + stores.now.m ≤ length (channel_series stores.now query)) }
{
    if let Some(cause) = refs_cause(stores, &[at, query]) {
        return Some(cause);
    }
    if windows(stores.channel_len(query), stores.window_len()) <= start {
        Some(Cause::Index)
    } else if stores.is_free(query, start) {
        None
    } else {
        Some(Cause::Missing)
    }
}

/// Why so many of a slot's channels aren't compared together, if they aren't.
pub(crate) fn multi_cause(stores: &Stores, slot: u64, k: u64) -> Option<Cause>
    ensures cause { IsCause stores.now (λ stands. multi_conditions stands slot k) result }
    ensures slot { IfNone result (slot < SLOTS) }
    ensures open { IfNone result (0 < length (streams_at stores.now slot)) }
    ensures some { IfNone result (1 ≤ k) }
    ensures present { IfNone result (k ≤ length (streams_at stores.now slot)) }
    ensures alike { IfNone result (AreChannels (streams_at stores.now slot)) }
{
    let count = stores.count(slot);
    if count == 0 {
        Some(Cause::Slot)
    } else if stores.is_kept(slot) {
        Some(Cause::Kept)
    } else if stores.is_lazy(slot) {
        Some(Cause::Lazy)
    } else if (1..=count).contains(&k) {
        None
    } else {
        Some(Cause::Channel)
    }
}
