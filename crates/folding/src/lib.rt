// Values of folded columns: all eight bytes folded at once, and the bits that a search looks at first.

#![tactic(auto)]

ghost use Rattle.std.specs.Prelude.{◌≡◌};
ghost use Rattle.rules.specs.Values.{raised, each_byte, folded};
ghost use Rattle.folding.specs.Masks.{masked, first_mask};

// The bits with 41 to 5A (hexadecimal) raised by 20 in each byte. Bit 7 of y + 3F says that a byte without its own bit 7
// is 41 or more, bit 7 of y + 25 that it is above 5A.
fn fold_bits(n: u64) -> u64
    ensures { result ≡ each_byte raised 8 n }
{
    let y = n & 0x7f7f_7f7f_7f7f_7f7f;
    let a = y + 0x3f3f_3f3f_3f3f_3f3f;
    let b = y + 0x2525_2525_2525_2525;
    let c = a ^ b;
    let upper = ((c | n) ^ n) & 0x8080_8080_8080_8080;
    n | (upper >> 2)
}

// A value as its column, folded or not, compares it.
pub fn compared(f: bool, w: i64) -> i64
    ensures { result ≡ folded f w }
{
    if f {
        fold_bits(w.cast_unsigned()).cast_signed()
    } else {
        w
    }
}

// ---- what a search looks at first

// The bits of a value that a column, folded or not, looks at first: in a folded one, all but 20 (hexadecimal) of each byte.
pub fn first_mask(f: bool) -> i64
    ensures { result ≡ first_mask f }
{
    if f { -0x2020_2020_2020_2021 } else { -1 }
}

// The bits of a word that a mask has.
pub fn under_mask(x: i64, m: i64) -> i64
    ensures { result ≡ masked m x }
{
    x & m
}
