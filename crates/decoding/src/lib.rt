// Calls in a slice of bytes: twelve words, little-endian, signed.

#![tactic(auto)]

ghost use Rattle.std.specs.Prelude.{◌≡◌, ◌+◌, ◌≤◌, length};
ghost use Rattle.decoding.specs.CallBytes.{words_at};

use std::array;

// The twelve words of the 96 bytes that start at i.
pub fn words_at(bytes: &[u8], i: usize) -> [i64; 12]
    requires { i + 96 ≤ length bytes.now }
    ensures { result ≡ words_at bytes.now i }
{
    array::from_fn(|k| numbers::signed_at(bytes, i + 8 * k))
}
