ghost use Rattle.std.specs.Prelude.{◌≡◌, ◌≤◌};
ghost use Rattle.mp_results.specs.Generator.{drawn, folded, period, sample_of, wave};

use mp_nums::{Sample, Whole};

/// What SplitMix64 adds from one place to the next.
const STEP: u64 = 0x9e37_79b9_7f4a_7c15;

/// Sample `i` of the series that is made from a number. It takes no memory.
///
/// The series is a triangle wave from 0 to half its period and back, in hundreds, to which from -20 to 20 is added by
/// chance. The period is 64 samples and 40 samples in turns of 1,000 samples. Of each 997 samples the last one is
/// missing. Chance is the number that SplitMix64 draws; the wave and its numbers are our own.
pub fn sample_at(number: u64, i: u64) -> Sample
    ensures { result ≡ sample_of number i }
{
    if i % 997 == 996 {
        return Sample::Missing;
    }
    let chance = drawn(number, i) % 41;
    Sample::Value(Whole::from((wave(i) + chance) as i32 - 20))
}

/// The wave without chance.
fn wave(i: u64) -> u64
    ensures wave { result ≡ wave i }
    ensures low { result ≤ 3200 }
{
    let period = period(i);
    let t = i % period;
    100 * t.min(period - t)
}

/// The number of samples of a wave.
fn period(i: u64) -> u64
    ensures { result ≡ period i }
{
    if i / 1000 % 2 == 0 { 64 } else { 40 }
}

/// The number that SplitMix64 draws at place `i`.
fn drawn(seed: u64, i: u64) -> u64
    ensures { result ≡ drawn seed i }
{
    let weyl = seed.wrapping_add(i.wrapping_add(1).wrapping_mul(STEP));
    let mixed = folded(weyl, 30).wrapping_mul(0xbf58_476d_1ce4_e5b9);
    folded(folded(mixed, 27).wrapping_mul(0x94d0_49bb_1331_11eb), 31)
}

fn folded(x: u64, shift: u32) -> u64
    requires { shift ≤ 63 }
    ensures { result ≡ folded shift x }
{
    x ^ (x >> shift)
}
