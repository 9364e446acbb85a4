//! The channels of one slot.

ghost use Rattle.std.specs.Prelude.{◌≡◌, ◌-◌, ◌^◌, ◌≤◌, All, min, OnOk};
ghost use Rattle.mp_stores.specs.Channels.{HaveGrown};
ghost use Rattle.mp_stores.specs.Stores.{HaveRoom, RoomWasMade, lists_in, reads_in};

use crate::channels::Channel;
use mp_nums::{Memory, Sample};

/// How often samples were read, of all channels together. The count stays at its greatest value.
pub(crate) fn reads_of(channels: &[Channel]) -> u128
    ensures { result ≡ min (reads_in channels.now) (2 ^ 128 - 1) }
{
    let mut reads: u128 = 0;
    for channel in channels {
        reads = reads.saturating_add(channel.reads());
    }
    reads
}

/// Makes room for so many more samples in each channel.
pub(crate) fn reserve_all(channels: &mut [Channel], more: u64) -> Result<(), Memory>
    ensures ok { OnOk result (All (λ channel. more ≤ channel.spare) channels.new) }
    ensures same { RoomWasMade channels.old channels.new }
{
    for k in 0..channels.len() {
        channels[k].reserve(more)?;
    }
    Ok(())
}

/// Appends to each channel its samples, for which there is room.
pub(crate) fn add_all(channels: &mut [Channel], added: &[Vec<Sample>])
    requires { HaveRoom channels.old (lists_in added.now) }
    ensures { HaveGrown (lists_in added.now) channels.old channels.new }
{
    for k in 0..channels.len() {
        channels[k].add(added[k].as_slice());
    }
}
