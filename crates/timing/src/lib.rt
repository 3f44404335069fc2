// Inner calls of `natives` as C functions, for the benchmark alone (`host/compare/bench`): a static library of its own,
// so that `bicycle` has no function more. Nothing is tested here, as nothing is in the calls that are timed.
#![tactic(auto)]

ghost use Rattle.std.specs.Prelude.{◌≡◌, true, ◌<◌, length};
ghost use Rattle.native_measurement.specs.Natives.{natives};
ghost use Rattle.measurement.specs.Matrices.{side, of_bytes, is_bytes};
ghost use Rattle.measurement.specs.Measures.{pair_string};
ghost use Rattle.natives.specs.Kept.{kept};
ghost use Rattle.natives.specs.Arrays.{strings};

use measurement::Pair;

// The strings of all natives of the pair.
#[unsafe(no_mangle)]
pub extern "C" fn timing_strings_unchecked(mx: &[u8], my: &[u8], out: &mut [u32])
    requires { (is_bytes side mx.now ≡ true) × (is_bytes side my.now ≡ true) × (length out.old ≡ natives) }
    ensures { out.new ≡ strings (of_bytes side mx.now) (of_bytes side my.now) }
{
    natives::strings_unchecked(Pair { mx, my }, out)
}

// A native's string, and whether the native is kept.
#[repr(C)]
#[derive(Clone, Copy)]
pub struct OneNative {
    pub string: u32,
    pub kept: bool,
}

// All natives of the pair are formed with their flags. Which of them is answered is known only in the call, so that a
// compiler can leave out none.
#[unsafe(no_mangle)]
pub extern "C" fn timing_natives_unchecked(mx: &[u8], my: &[u8], n: usize) -> OneNative
    requires { (is_bytes side mx.now ≡ true) × (is_bytes side my.now ≡ true) × (n < natives) }
    ensures string_value { result.string ≡ pair_string side mx.now my.now n }
    ensures kept_value { result.kept ≡ kept (pair_string side mx.now my.now) n }
{
    let all = natives::natives_unchecked(Pair { mx, my });
    OneNative {
        string: all.strings[n],
        kept: all.kept[n],
    }
}
