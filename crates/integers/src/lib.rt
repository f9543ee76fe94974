// Whole numbers with a sign: definitions in specs/, laws in proofs/. The code is the signed arithmetic whose bounds
// callers would prove each for itself; order, equality, least and greatest are operators and methods
// (proofs/Operators).
#![tactic(auto, using(crate::proofs::Operators::operators))]

ghost use Rattle.std.specs.Prelude.{◌≡◌, ◌-◌, ◌^◌, ◌≤◌, pos, nat_abs, ◌+ℤ◌, ◌*ℤ◌};
ghost use Rattle.integers.specs.Integers.{half, even};
ghost use Rattle.integers.specs.Range.{Within};

pub fn narrow(x: i64) -> i32
    requires { Within (2 ^ 31 - 1) x }
    ensures { result ≡ x }
{
    x as i32
}

pub fn sum(x: i64, y: i64) -> i64
    requires { Within (2 ^ 61) x × Within (2 ^ 61) y }
    ensures { result ≡ x +ℤ y }
{
    x + y
}

pub fn times(k: usize, x: i64) -> i64
    requires { (k ≤ 1024) × Within (2 ^ 47) x }
    ensures { result ≡ pos k *ℤ x }
{
    (k as i64) * x
}

// A number without its sign.
pub fn magnitude(x: i64) -> usize
    requires { Within (2 ^ 61) x }
    ensures { result ≡ nat_abs x }
{
    x.unsigned_abs() as usize
}

#[tactic(auto, unfolding(crate::specs::Integers::half))]
pub fn half(x: i64) -> i64
    ensures { result ≡ half x }
{
    x / 2
}

pub fn is_even(x: i64) -> bool
    requires { Within (2 ^ 61) x }
    ensures { result ≡ even x }
{
    x % 2 == 0
}
