ghost use Rattle.std.specs.Prelude.{◌≡◌, ◌*◌, ◌<◌, ◌≤◌, All, map, length, IfOk};
ghost use Rattle.mp_series.specs.declared.limits.TheConstants.{MAX_SAMPLES, MAX_WINDOW};
ghost use Rattle.mp_arcs.specs.declared.curves.TheConstants.{MAX_FACTOR};
ghost use Rattle.mp_results.specs.Curve.{parts_of, whole, value_at, curve_of};

use mp_nums::{Memory, Ratio};
use mp_series::{MAX_SAMPLES, MAX_WINDOW};
use std::alloc::Global;

/// The most window lengths at either end of the curve in which it is one.
pub const MAX_FACTOR: u32 = 100;

/// The corrected arc curve: at each place the arcs that pass over it by their ideal number there, as a fraction that
/// isn't reduced.
///
/// `arcs` has the arcs over each place of the windows of `m` samples. The ideal number at place `t` of `w` is
/// `2 * t * (w - t) / w`. A value is `1/1` where the fraction isn't below one, at place 0, where `t` is below `factor`
/// window lengths, and where `w` isn't above `t` and these together. The curve is FLUSS's; its ends and its fractions
/// are our own.
pub fn corrected(alloc: Global, arcs: &[u64], m: u32, factor: u32) -> Result<Vec<Ratio>, Memory>
    requires places { length arcs.now ≤ MAX_SAMPLES }
    requires counts { All (λ count. count ≤ MAX_SAMPLES) arcs.now }
    requires m { m ≤ MAX_WINDOW }
    requires factor { factor ≤ MAX_FACTOR }
    ensures { IfOk result (λ curve. map parts_of curve.items ≡ curve_of arcs.now m factor) }
{
    let places = arcs.len() as u64;
    let margin = u64::from(factor) * u64::from(m);
    let mut curve = Vec::with_capacity(alloc, arcs.len())?;
    for place in 0..arcs.len() {
        curve.push(value_at(arcs[place], places, margin, place as u64))?;
    }
    Ok(curve)
}

fn value_at(arcs: u64, places: u64, margin: u64, place: u64) -> Ratio
    requires arcs { arcs ≤ MAX_SAMPLES }
    requires places { places ≤ MAX_SAMPLES }
    requires margin { margin ≤ MAX_FACTOR * MAX_WINDOW }
    requires place { place < places }
    ensures { parts_of result ≡ value_at arcs places margin place }
{
    if place == 0 || place < margin || place + margin >= places {
        return one();
    }
    let (num, den) = (arcs * places, 2 * place * (places - place));
    if num < den {
        Ratio::new(num, den)
    } else {
        one()
    }
}

fn one() -> Ratio
    ensures { parts_of result ≡ whole }
{
    Ratio::new(1, 1)
}
