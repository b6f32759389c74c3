// Words of the area: the only signed operations, rows written and fetched.

#![tactic(auto)]

ghost use Rattle.std.specs.Prelude.{◌≡◌, ◌++◌, ◌+◌, ◌*◌, ◌-◌, ◌^◌, ◌≤◌, ◌<◌, pos, length, get_or, take, drop, replicate};
ghost use Rattle.std.proofs.lemmas.List.Edits.{sets};
ghost use Rattle.rules.specs.Lists.{padded};
ghost use Rattle.rules.specs.Values.{nat_of, natural, in_range, same_word, all_zero};

// A word as a number; 0 where it is negative.
pub fn nat_of(w: i64) -> usize
    ensures { result ≡ nat_of w }
{
    w.max(0) as usize
}

// A number as a word.
pub fn word_of(n: usize) -> i64
    requires { n < 2 ^ 63 }
    ensures { result ≡ pos n }
{
    n as i64
}

// Whether two words are the same number.
// The rules compare words by cases: that `==` does the same is shown here, for all callers.
pub fn same_word(a: i64, b: i64) -> bool
    ensures { result ≡ same_word a b }
{
    a == b
}

// The word at i as a number; 0 where it is negative.
pub fn nat_at(area: &[i64], i: usize) -> usize
    requires { i < length area.now }
    ensures { result ≡ nat_of (get_or area.now i (pos 0)) }
{
    nat_of(area[i])
}

// Whether a word is not negative.
pub fn is_natural(w: i64) -> bool
    ensures { result ≡ natural w }
{
    0 <= w
}

// Whether the word at i is not negative.
pub fn is_natural_at(area: &[i64], i: usize) -> bool
    requires { i < length area.now }
    ensures { result ≡ natural (get_or area.now i (pos 0)) }
{
    is_natural(area[i])
}

// Whether the word at i is 0.
pub fn is_zero_at(area: &[i64], i: usize) -> bool
    requires { i < length area.now }
    ensures { result ≡ same_word (pos 0) (get_or area.now i (pos 0)) }
{
    area[i] == 0
}

// Whether the words from `from` on are all 0.
pub fn all_zero_from(area: &[i64], from: usize) -> bool
    ensures { result ≡ all_zero (drop from area.now) }
{
    area[from.min(area.len())..].iter().all(|w| *w == 0)
}

// Whether the word at i is a number from 0 to n.
pub fn is_in_range_at(area: &[i64], i: usize, n: usize) -> bool
    requires { i < length area.now }
    ensures { result ≡ in_range n (get_or area.now i (pos 0)) }
{
    is_natural_at(area, i) & (nat_at(area, i) <= n)
}

// Writes words at `at`.
pub fn put_words(area: &mut [i64], at: usize, words: &[i64])
    requires { at + length words.now ≤ length area.old }
    ensures { area.new ≡ sets area.old at words.now }
{
    area[at..at + words.len()].copy_from_slice(words);
}

// Zeroes `count` words from `from` on.
pub fn clear_part(area: &mut [i64], from: usize, count: usize)
    requires { from + count ≤ length area.old }
    ensures { area.new ≡ sets area.old from (replicate count (pos 0)) }
{
    area[from..from + count].fill(0);
}

// Zeroes the words from `from` on.
pub fn clear_from(area: &mut [i64], from: usize)
    requires { from ≤ length area.old }
    ensures { area.new ≡ take from area.old ++ replicate (length area.old - from) (pos 0) }
{
    let count = area.len() - from;
    clear_part(area, from, count);
}

// Writes row r of the table that stands from `start` to `end`, through the table's part of the area.
pub fn write_row(
    area: &mut [i64],
    start: usize,
    end: usize,
    stride: usize,
    r: usize,
    image: [i64; 9],
)
    requires { (start + (r * stride + stride) ≤ end) × ((end ≤ length area.old) × (stride ≤ 9)) }
    ensures { area.new ≡ sets area.old (start + r * stride) (take stride image) }
{
    let at = r * stride;
    put_words(&mut area[start..end], at, &image[..stride]);
}

// The words given, and zeros up to N.
fn padded_to<const N: usize>(words: &[i64]) -> [i64; N]
    requires { length words.now ≤ N }
    ensures { result ≡ padded N words.now }
{
    let mut all = [0i64; N];
    all[..words.len()].copy_from_slice(words);
    all
}

// The image of the row of `width` words at p.
pub fn image_at(area: &[i64], p: usize, width: usize) -> [i64; 9]
    requires { (p + width ≤ length area.now) × (width ≤ 9) }
    ensures { result ≡ padded 9 (take width (drop p area.now)) }
{
    padded_to(&area[p..p + width])
}

// The 32 numbers at p.
pub fn numbers_at(area: &[i64], p: usize) -> [i64; 32]
    requires { p + 32 ≤ length area.now }
    ensures { result ≡ take 32 (drop p area.now) }
{
    padded_to(&area[p..p + 32])
}

// Writes 32 numbers at p: `put_words` of an array.
pub fn put_numbers(area: &mut [i64], p: usize, numbers: [i64; 32])
    requires { p + 32 ≤ length area.old }
    ensures { area.new ≡ sets area.old p numbers }
{
    put_words(area, p, &numbers);
}
