//! INTEGER and TIME (5.2.3, 5.2.4, 9.2.5 to 9.2.8).

ghost use Rattle.std.specs.Prelude.{◌≡◌, ◌≢◌, ◌^◌, min, pos, neg_ℤ, ◌+ℤ◌, ◌-ℤ◌, ◌*ℤ◌, int_div, int_rem, unsigned_abs};
ghost use Rattle.sim_operators.specs.Numbers as spec;

use crate::fault::Fault;
use sim_elaborated::{Arithmetic, Number};

fn in_integer(number: i128) -> Result<i64, Fault>
    ensures { result ≡ spec.in_integer number }
{
    if i128::from(i32::MIN) <= number && number <= i128::from(i32::MAX) {
        Ok(number as i64)
    } else {
        Err(Fault::Overflow)
    }
}

fn in_time(number: i128) -> Result<i64, Fault>
    ensures { result ≡ spec.in_time number }
{
    if 0 <= number && number <= i128::from(i64::MAX) {
        Ok(number as i64)
    } else {
        Err(Fault::Overflow)
    }
}

/// The number, where it lies in its type.
pub(crate) fn within(of: Number, number: i128) -> Result<i64, Fault>
    ensures { result ≡ spec.within of number }
{
    match of {
        Number::Integer => in_integer(number),
        Number::Time => in_time(number),
    }
}

fn sum(a: i64, b: i64) -> i128
    ensures { result ≡ a +ℤ b }
{
    i128::from(a) + i128::from(b)
}

fn difference(a: i64, b: i64) -> i128
    ensures { result ≡ a -ℤ b }
{
    i128::from(a) - i128::from(b)
}

fn product(a: i64, b: i64) -> i128
    ensures { result ≡ a *ℤ b }
{
    i128::from(a) * i128::from(b)
}

fn quotient(a: i64, b: i64) -> i128
    requires { b ≢ pos 0 }
    ensures { result ≡ int_div a b }
{
    i128::from(a) / i128::from(b)
}

fn remainder(a: i64, b: i64) -> i64
    requires { b ≢ pos 0 }
    ensures { result ≡ int_rem a b }
{
    (i128::from(a) % i128::from(b)) as i64
}

fn has_sign_of(rest: i64, b: i64) -> bool
    ensures { result ≡ spec.has_sign_of rest b }
{
    if rest < 0 { b < 0 } else { rest == 0 || 0 <= b }
}

fn modulus(a: i64, b: i64) -> i128
    requires { b ≢ pos 0 }
    ensures { result ≡ spec.modulus a b }
{
    let rest = remainder(a, b);
    if has_sign_of(rest, b) {
        i128::from(rest)
    } else {
        sum(rest, b)
    }
}

pub(crate) fn negation(a: i64) -> i128
    ensures { result ≡ neg_ℤ a }
{
    -i128::from(a)
}

pub(crate) fn magnitude(a: i64) -> i128
    ensures { result ≡ pos (unsigned_abs a) }
{
    i128::from(a).abs()
}

fn exponent(b: i64) -> u32
    ensures { result ≡ spec.exponent b }
{
    b.unsigned_abs().min(u64::from(u32::MAX)) as u32
}

fn power(of: Number, a: i64, b: i64) -> Result<i64, Fault>
    ensures { result ≡ spec.power of a b }
{
    if b < 0 {
        return Err(Fault::Range(b));
    }
    match i128::from(a).checked_pow(exponent(b)) {
        Some(number) => within(of, number),
        None => Err(Fault::Overflow),
    }
}

/// What an arithmetic operator gives, in the type of its result.
pub fn calculate(operator: Arithmetic, of: Number, a: i64, b: i64) -> Result<i64, Fault>
    ensures { result ≡ spec.calculated operator of a b }
{
    match operator {
        Arithmetic::Add => within(of, sum(a, b)),
        Arithmetic::Subtract => within(of, difference(a, b)),
        Arithmetic::Multiply => within(of, product(a, b)),
        Arithmetic::Divide => {
            if b == 0 {
                return Err(Fault::DivZero);
            }
            within(of, quotient(a, b))
        }
        Arithmetic::Modulo => {
            if b == 0 {
                return Err(Fault::DivZero);
            }
            within(of, modulus(a, b))
        }
        Arithmetic::Remainder => {
            if b == 0 {
                return Err(Fault::DivZero);
            }
            within(of, i128::from(remainder(a, b)))
        }
        Arithmetic::Power => power(of, a, b),
    }
}
