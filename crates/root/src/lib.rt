// The square root of an f32, to the nearest f32, ties to even, worked out on whole numbers (document 02, point 2). This crate knows only floats.
#![tactic(auto)]

ghost use Rattle.std.specs.Prelude.{◌≡◌, ◌+◌, ◌*◌, ◌%◌, ◌^◌, ◌≤◌, ◌<◌, T};
ghost use Rattle.std.specs.Float.Ieee.Positive.{positive};
ghost use Rattle.root.specs.Nearest.{root_of};
ghost use Rattle.root.specs.Patterns.{Pattern, Shifted, Between, WholeRoot, RootPattern};

// A number as digits * 2 ^ shift, with 24 binary digits.
#[derive(Clone, Copy, Debug, PartialEq, Eq)]
pub struct Parts {
    pub digits: u64,
    pub shift: u32,
}

// In a pattern the exponent's field stands above 23 binary digits.
const FIELD: u32 = 1 << 23;

// The least whole number of 24 binary digits.
const LEAST: u64 = 1 << 23;

// The number of a pattern, in units of 2 ^ -149 and times 2 ^ 24. A subnormal's digits are moved up until there are 24.
#[tactic(auto, using(crate::proofs::Loops::moving))]
fn split(bits: u32) -> Parts
    requires { Pattern bits }
    ensures { Shifted bits result.digits result.shift }
{
    let field = bits / FIELD;
    if field > 0 {
        return Parts {
            digits: (FIELD + bits % FIELD) as u64,
            shift: field + 23,
        };
    }
    let mut digits = bits as u64;
    let mut shift: u32 = 24;
    // A while: the digits say when it ends.
    'up: while digits < LEAST {
        digits *= 2;
        shift -= 1;
    }
    Parts { digits, shift }
}

// The digits with 23 or 24 zeros behind them, so that the exponent that is left is even.
fn radicand(digits: u64, shift: u32) -> u64
    requires { (8388608 ≤ digits) × (digits < 16777216) }
    ensures { (result ≡ digits * 2 ^ (23 + shift % 2)) × Between result }
{
    if shift % 2 == 0 {
        digits * LEAST
    } else {
        digits * (2 * LEAST)
    }
}

// The largest whole number whose square is at most n, by halving an interval that has it: 23 turns.
fn whole_root(n: u64) -> u64
    requires { Between n }
    ensures { WholeRoot n result }
{
    let mut low = LEAST;
    let mut high = 2 * LEAST;
    // A while: an end moves.
    'halves: while high - low > 1 {
        let middle = (low + high) / 2;
        if middle * middle <= n {
            low = middle;
        } else {
            high = middle;
        }
    }
    low
}

// The pattern of the root. One more where the next pattern's number is nearer; added and not or-ed, so that 2 ^ 24 carries into the field.
fn root_pattern(bits: u32) -> u32
    requires { Pattern bits }
    ensures { RootPattern bits result }
{
    let p = split(bits);
    let n = radicand(p.digits, p.shift);
    let q = whole_root(n);
    let r = (p.shift / 2 + 51) * FIELD + q as u32;
    if n - q * q > q {
        return r + 1;
    }
    r
}

pub fn sqrt(x: f32) -> f32
    requires { T (positive x) }
    ensures { result ≡ root_of x }
{
    f32::from_bits(root_pattern(x.to_bits()))
}
