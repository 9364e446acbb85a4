//! Changes of slots.

ghost use Rattle.std.specs.Prelude.{◌≡◌, ℕ, ◌+◌, ◌≤◌, false, OnErr, OnOk};
ghost use Rattle.mp_partial.specs.declared.limits.TheConstants.{MAX_WORKERS};
ghost use Rattle.mp_commands.specs.Preparing.{CanMake, adds, changed_by, covers, puts};
ghost use Rattle.mp_commands.specs.Reads.{append_reads};
ghost use Rattle.mp_stores.specs.Stores.{StandAsBefore, StandChanged, reads_at};
ghost use Rattle.mp_session.specs.Sessions.{AddsEach, CoversMore};

use mp_commands::Change;
use mp_nums::Memory;
use mp_outside::Gate;
use mp_partial::MAX_WORKERS;
use mp_stores::Stores;
use std::alloc::Global;
use std::thread::Threads;

/// Makes a change in the slots. Where it covers diagonals, which is done by so many workers, it takes memory, and
/// changes nothing but how often samples were read where there is none.
pub(crate) fn make_change<R: Threads + Sync, G: Gate>(
    rt: &R,
    alloc: Global,
    stores: &mut Stores,
    change: Change,
    workers: u32,
    gate: &G,
) -> Result<(), Memory>
    requires can { CanMake stores.old change }
    requires some { 1 ≤ workers }
    requires workers { workers ≤ MAX_WORKERS }
    ensures m { stores.new.m ≡ stores.old.m }
    ensures ok { OnOk result (StandChanged (changed_by change) stores.old stores.new) }
    ensures err { OnErr result (StandAsBefore stores.old stores.new) }
    ensures only { OnErr result (CoversMore change) }
    ensures rise { (slot : ℕ) → puts change slot ≡ false → reads_at stores.old slot ≤ reads_at stores.new slot }
    ensures rest { (slot : ℕ) → puts change slot ≡ false → adds change slot ≡ false → covers change slot ≡ false
        → reads_at stores.new slot ≡ reads_at stores.old slot }
    ensures added { (slot count : ℕ) → AddsEach change slot count
        → reads_at stores.new slot ≤ reads_at stores.old slot + append_reads stores.old slot count }
{
    match change {
        Change::Keep => {}
        Change::PutChannels { slot, channels } => stores.put(slot, channels),
        Change::PutKept { slot, kept } => stores.put_kept(slot, kept),
        Change::PutLazy { slot, part } => stores.put_lazy(slot, part),
        Change::AddSamples { slot, added } => stores.add(slot, added.as_slice()),
        Change::Advance { slot, count } => {
            return stores.advance(rt, alloc, slot, count, workers, gate);
        }
    }
    Ok(())
}
