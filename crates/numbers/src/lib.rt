// Numbers in a slice of bytes, little-endian; bits of a mask; where a foreign key's record begins.

#![tactic(auto)]

ghost use Rattle.std.specs.Prelude.{◌≡◌, not, ◌&&◌, ◌+◌, ◌*◌, ◌^◌, ◌≤◌, ◌<◌, length, take, drop};
ghost use Rattle.std.specs.Int.Count.{ones};
ghost use Rattle.std.specs.Int.{w64};
ghost use Rattle.std.proofs.Common.{to_z};
ghost use Rattle.schema.specs.Bytes.{byte, half, word, signed_word, bit};
ghost use Rattle.schema.specs.Fields.{key_start};
ghost use Rattle.schema.specs.Marks.{marked, Marks};

// The N bytes that start at i.
fn bytes_at<const N: usize>(s: &[u8], i: usize) -> [u8; N]
    requires { i + N ≤ length s.now }
    ensures { result ≡ take N (drop i s.now) }
{
    s[i..i + N].try_into().unwrap()
}

// The byte at i.
pub fn byte_at(s: &[u8], i: usize) -> usize
    requires { i < length s.now }
    ensures { (result ≡ byte s.now i) × (result < 256) }
{
    usize::from(s[i])
}

// The unsigned 16-bit number whose two bytes start at i.
pub fn half_at(s: &[u8], i: usize) -> usize
    requires { i + 2 ≤ length s.now }
    ensures { (result ≡ half s.now i) × (result < 65536) }
{
    usize::from(u16::from_le_bytes(bytes_at(s, i)))
}

// The unsigned 64-bit number whose eight bytes start at i.
pub fn word_at(s: &[u8], i: usize) -> usize
    requires { i + 8 ≤ length s.now }
    ensures { result ≡ word s.now i }
{
    usize::from_le_bytes(bytes_at(s, i))
}

// The signed number whose 64 bits in two's complement are those of u.
pub fn signed(u: usize) -> i64
    ensures { result ≡ to_z w64 u }
{
    (u as u64).cast_signed()
}

// The signed 64-bit number whose eight bytes start at i.
pub fn signed_at(s: &[u8], i: usize) -> i64
    requires { i + 8 ≤ length s.now }
    ensures { result ≡ signed_word s.now i }
{
    i64::from_le_bytes(bytes_at(s, i))
}

// Bit i of a number.
pub fn bit_of(i: usize, m: usize) -> bool
    requires { i < 64 }
    ensures { result ≡ bit i m }
{
    (m >> i) % 2 == 1
}

// Bit i of a mask, whatever i is.
pub fn is_bit(m: usize, i: usize) -> bool
    requires { m < 256 }
    ensures { result ≡ bit i m }
{
    i < 64 && bit_of(i, m)
}

// The count of ones in a mask.
pub fn ones_of(m: usize) -> usize
    requires { m < 256 }
    ensures { result ≡ ones m }
{
    m.count_ones() as usize
}

// 2 to the power i.
pub fn power(i: usize) -> usize
    requires { i < 64 }
    ensures { result ≡ 2 ^ i }
{
    1 << i
}

// A mask of numbers below k, with k in it or not.
pub fn marked(m: usize, k: usize, b: bool) -> usize
    requires { (k < 63) × (m < 2 ^ k) }
    ensures { result ≡ marked m k b }
{
    if b { m + power(k) } else { m }
}

// Where the record of foreign key k begins.
pub fn key_start(s: &[u8], k: usize) -> usize
    requires { (16 ≤ length s.now) × (key_start s.now k + 16 ≤ length s.now) }
    ensures { result ≡ key_start s.now k }
{
    16 + 80 * half_at(s, 4) + 16 * k
}

// The bits of a mask of 32 that another has not.
pub fn without(m: usize, q: usize) -> usize
    ensures { Marks (λ k. bit k m && not (bit k q)) 32 result }
{
    m & !q & 0xffff_ffff
}
