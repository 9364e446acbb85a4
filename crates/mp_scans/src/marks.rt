//! Marks of the windows of which no sample is missing.

ghost use Rattle.std.specs.Prelude.{◌≡◌, ℕ, ◌+◌, ◌^◌, ◌<◌, ◌≤◌, length, slice_index_or, is_some, nat_le, true, false};
ghost use Rattle.mp_defs.specs.Series.{reading_of, series_of, number_at};
ghost use Rattle.mp_scans.specs.Free.{AreFree, IsClear};

use mp_nums::Sample;
use mp_sums::sample_at;

/// Whether a sample isn't missing.
#[inline]
fn is_there(sample: Sample) -> bool
    ensures { result ≡ is_some (reading_of sample) }
{
    match sample {
        Sample::Value(_) => true,
        Sample::Missing => false,
    }
}

/// Goes on by one sample: from `clear` on none was missing, and now none is from the result on.
#[inline]
fn clear_after(samples: &[Sample], from: usize, clear: usize, place: usize) -> usize
    requires after { from ≤ place }
    requires clear { IsClear (series_of samples.now) from clear place }
    requires place { place < 2 ^ 62 }
    ensures { IsClear (series_of samples.now) from result (place + 1) }
{
    if is_there(sample_at(samples, place)) {
        clear
    } else {
        place + 1
    }
}

/// Whether no sample of a window that starts at a place is missing.
#[inline]
fn is_clear_at(clear: usize, place: usize) -> bool
    ensures { result ≡ nat_le clear place }
{
    clear <= place
}

/// The place from which on no sample is missing, of those from `from` on and before `end`.
fn find_clear(samples: &[Sample], from: usize, end: usize) -> usize
    requires ordered { from ≤ end }
    requires end { end < 2 ^ 62 }
    ensures { IsClear (series_of samples.now) from result end }
{
    let mut clear = from;
    for place in from..end {
        clear = clear_after(samples, from, clear, place);
    }
    clear
}

/// Whether it is seen at once that no sample is missing of those from `from` on and before `end`. It looks at all of
/// them, many at once.
fn are_there(samples: &[Sample], from: usize, end: usize) -> bool
    requires { from ≤ end }
    ensures { result ≡ true → IsClear (series_of samples.now) from from end }
{
    if samples.len() < end {
        return false;
    }
    let mut there = true;
    for place in from..end {
        there = there & is_there(samples[place]);
    }
    there
}

/// Marks all windows.
fn mark_all(marks: &mut [bool])
    ensures marks { (k : ℕ) → k < length marks.new → slice_index_or marks.new k false ≡ true }
    ensures places { length marks.new ≡ length marks.old }
{
    for k in 0..marks.len() {
        marks[k] = true;
    }
}

/// Marks the windows of `m` samples from `start` on of which no sample is missing, sample by sample.
fn mark_each(samples: &[Sample], m: usize, start: usize, marks: &mut [bool])
    requires some { 1 ≤ m }
    requires end { start + m + length marks.old < 2 ^ 62 }
    ensures marks { AreFree m (series_of samples.now) start marks.new }
    ensures places { length marks.new ≡ length marks.old }
{
    let mut clear = find_clear(samples, start, start + m - 1);
    for k in 0..marks.len() {
        clear = clear_after(samples, start, clear, start + m - 1 + k);
        marks[k] = is_clear_at(clear, start + k);
    }
}

/// Marks the windows of `m` samples from `start` on of which no sample is missing: mostly all.
pub fn mark_free(samples: &[Sample], m: usize, start: usize, marks: &mut [bool])
    requires some { 1 ≤ m }
    requires end { start + m + length marks.old < 2 ^ 62 }
    ensures marks { AreFree m (series_of samples.now) start marks.new }
    ensures places { length marks.new ≡ length marks.old }
{
    if are_there(samples, start, start + m + marks.len()) {
        mark_all(marks);
    } else {
        mark_each(samples, m, start, marks);
    }
}
