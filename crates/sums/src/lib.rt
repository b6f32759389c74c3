// Arrays of 32 signed numbers: sums, differences, zeros.

#![tactic(auto)]

ghost use Rattle.std.specs.Prelude.{◌≡◌};
ghost use Rattle.rules.specs.Lists;
ghost use Rattle.rules.specs.Values.{all_zero};
ghost use Rattle.sums.specs.Small.{Small};

use std::array;

// The sum of 32 numbers.
pub fn sum_of(numbers: [i64; 32]) -> i64
    requires { Small 4096 numbers }
    ensures { result ≡ Lists.sum numbers }
{
    let mut sum = 0;
    for number in numbers {
        sum += number;
    }
    sum
}

// Number by number, the first plus the second.
pub fn plus_of(a: [i64; 32], b: [i64; 32]) -> [i64; 32]
    requires { Small 4096 a × Small 4096 b }
    ensures { result ≡ Lists.plus a b }
{
    array::from_fn(|k| a[k] + b[k])
}

// Number by number, the first less the second.
pub fn less_of(a: [i64; 32], b: [i64; 32]) -> [i64; 32]
    requires { Small 4096 a × Small 4096 b }
    ensures { result ≡ Lists.less a b }
{
    array::from_fn(|k| a[k] - b[k])
}

// Whether every number is 0.
pub fn all_zero(numbers: [i64; 32]) -> bool
    ensures { result ≡ all_zero numbers }
{
    words::all_zero_from(&numbers, 0)
}
