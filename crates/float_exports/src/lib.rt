// The functions of float, narrowing, whole and roots under C names, for a program outside to call.
// Each promises what the function that it calls promises.
#![tactic(auto)]

ghost use Rattle.std.specs.Prelude.{◌≡◌, ◌^◌, min as smallerOf};
ghost use Rattle.std.specs.Float.{binary32, binary64};
ghost use Rattle.std.specs.Float.Ieee.Scale.{finite};
ghost use Rattle.float.specs.Simple.{abs_of, min_of, max_of, signum_of};
ghost use Rattle.float.specs.Arctan.{atan2_of};
ghost use Rattle.narrowing.specs.Width.{narrow_of};
ghost use Rattle.whole.specs.Whole.{floor_of, ceil_of, column_of, byte_of, of_whole};
ghost use Rattle.roots.specs.Root.{sqrt_of, hypot_of};

#[unsafe(no_mangle)]
pub extern "C" fn beamnettle_float_abs(x: f32) -> f32
    ensures { result ≡ abs_of x }
{
    float::abs(x)
}

#[unsafe(no_mangle)]
pub extern "C" fn beamnettle_float_max(x: f32, y: f32) -> f32
    ensures { result ≡ max_of x y }
{
    float::max(x, y)
}

#[unsafe(no_mangle)]
pub extern "C" fn beamnettle_float_min(x: f32, y: f32) -> f32
    ensures { result ≡ min_of x y }
{
    float::min(x, y)
}

#[unsafe(no_mangle)]
pub extern "C" fn beamnettle_float_signum(x: f32) -> f32
    ensures { result ≡ signum_of x }
{
    float::signum(x)
}

#[unsafe(no_mangle)]
pub extern "C" fn beamnettle_float_is_finite(x: f32) -> bool
    ensures { result ≡ finite x }
{
    float::is_finite(x)
}

#[unsafe(no_mangle)]
pub extern "C" fn beamnettle_float_widen(x: f32) -> f64
    ensures { result ≡ x }
{
    float::widen(x)
}

#[unsafe(no_mangle)]
pub extern "C" fn beamnettle_float_narrow(x: f64) -> f32
    ensures { result ≡ narrow_of x }
{
    narrowing::narrow(x)
}

#[unsafe(no_mangle)]
pub extern "C" fn beamnettle_float_sqrt(x: f32) -> f32
    ensures { result ≡ sqrt_of binary32 x }
{
    roots::sqrt(x)
}

#[unsafe(no_mangle)]
pub extern "C" fn beamnettle_float_sqrt64(x: f64) -> f64
    ensures { result ≡ sqrt_of binary64 x }
{
    roots::sqrt64(x)
}

#[unsafe(no_mangle)]
pub extern "C" fn beamnettle_float_hypot(x: f32, y: f32) -> f32
    ensures { result ≡ hypot_of x y }
{
    roots::hypot(x, y)
}

#[unsafe(no_mangle)]
pub extern "C" fn beamnettle_float_atan2(y: f32, x: f32) -> f32
    ensures { result ≡ atan2_of y x }
{
    float::atan2(y, x)
}

#[unsafe(no_mangle)]
pub extern "C" fn beamnettle_float_floor(x: f32) -> f32
    ensures { result ≡ floor_of x }
{
    whole::floor(x)
}

#[unsafe(no_mangle)]
pub extern "C" fn beamnettle_float_ceil(x: f32) -> f32
    ensures { result ≡ ceil_of x }
{
    whole::ceil(x)
}

#[unsafe(no_mangle)]
pub extern "C" fn beamnettle_float_to_column(x: f32) -> usize
    ensures { result ≡ column_of x }
{
    whole::to_column(x)
}

#[unsafe(no_mangle)]
pub extern "C" fn beamnettle_float_to_byte(x: f32) -> u8
    ensures { result ≡ byte_of x }
{
    whole::to_byte(x)
}

// A number over 2 ^ 24, of which not every float is exact, becomes 2 ^ 24.
#[unsafe(no_mangle)]
pub extern "C" fn beamnettle_float_from_whole(n: usize) -> f32
    ensures { result ≡ of_whole (smallerOf n (2 ^ 24)) }
{
    if n < 0x100_0000 {
        return whole::from_whole(n);
    }
    whole::from_whole(0x100_0000)
}
