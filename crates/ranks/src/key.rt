// Floats by keys that rise with them.
ghost use Rattle.std.specs.Prelude.{◌≡◌};
ghost use Rattle.ranks.specs.Keys.{of_key};

use readings::number::{float_of_bits, is_finite};

pub(crate) fn of_key(key: u64) -> f64
    ensures { result ≡ of_key key }
{
    if key < 0x8000_0000_0000_0000 {
        return float_of_bits(0xffff_ffff_ffff_ffff - key);
    }
    float_of_bits(key - 0x8000_0000_0000_0000)
}

// The key of a finite number. It is only proposed: no answer turns on it.
pub(crate) fn key_of(x: f64) -> Option<u64> {
    if !is_finite(x) {
        return None;
    }
    let bits = f64::to_bits(x);
    if bits < 0x8000_0000_0000_0000 {
        return Some(bits + 0x8000_0000_0000_0000);
    }
    Some(0xffff_ffff_ffff_ffff - bits)
}
