// The functions of the table.
ghost use Rattle.std.specs.Prelude.{◌≡◌, ◌^◌, ◌<◌, ◌≤◌, [], ◌∷◌, Float, from_bits, to_bits};
ghost use Rattle.std.specs.Float.{binary32, binary64};
ghost use Rattle.std.specs.Option.{ok_or};
ghost use Rattle.lines.specs.declared.refusal.Refusal.TheVariants.{Malformed};
ghost use Rattle.lines.specs.Refusals.{told};
ghost use Rattle.refusals.specs.Refusals.{answered};
ghost use Rattle.lines.specs.Functions.{functions, first_named, places_of, result_at};

use crate::refusal::Refusal;
use exponential::exp::exp;
use exponential::expm1::expm1;
use hyperbolic::cosh::cosh;
use hyperbolic::sinh::sinh;
use hyperbolic::tanh::tanh;
use inverse::acosh::acosh;
use inverse::asinh::asinh;
use inverse::atanh::atanh;
use logarithm::log::log;
use logarithm::log1p::log1p;
use single::expm1f::expm1f;
use single::log1pf::log1pf;
use std::num::{
    f32_from_bits_with_nan as f32_of, f32_to_bits_with_nan as bits_of_f32,
    f64_from_bits_with_nan as f64_of, f64_to_bits_with_nan as bits_of,
};

// The bits of a function's result at the f64 of the given bits.
fn at_f64<F: FnOnce(f64) -> f64>(function: F, bits: u64) -> u64
    requires { F.pre function (from_bits binary64 bits) }
    ensures { (value : Float) × F.post function (from_bits binary64 bits) value × (result ≡ to_bits binary64 value) }
{
    bits_of(function(f64_of(bits)))
}

// The same of an f32.
// Stays two functions: one for both would need a trait of bits with two impls, for two lines.
fn at_f32<F: FnOnce(f32) -> f32>(function: F, bits: u64) -> u64
    requires callable { F.pre function (from_bits binary32 bits) }
    requires fits { bits < 2 ^ 32 }
    ensures value { (value : Float) × F.post function (from_bits binary32 bits) value × (result ≡ to_bits binary32 value) }
    ensures bound { result < 2 ^ 32 }
{
    u64::from(bits_of_f32(function(f32_of(bits as u32))))
}

// A function that a line can ask for.
#[derive(Clone, Copy, PartialEq, Eq, Debug)]
pub enum Function {
    Expm1,
    Log1p,
    Sinh,
    Cosh,
    Tanh,
    Asinh,
    Acosh,
    Atanh,
    Exp,
    Log,
    Expm1f,
    Log1pf,
}

impl TryFrom<char> for Function {
    type Error = Refusal;

    ghost try_from_gives = { λ letter answer.
        (answered told answer ≡ ok_or (first_named functions (letter ∷ [])) (told Malformed))
        × (answer ≡ ok_or (first_named functions (letter ∷ [])) Malformed) };

    // The function whose name is this letter.
    fn try_from(letter: char) -> Result<Function, Refusal> {
        match letter {
            'E' => Ok(Function::Expm1),
            'L' => Ok(Function::Log1p),
            'S' => Ok(Function::Sinh),
            'C' => Ok(Function::Cosh),
            'T' => Ok(Function::Tanh),
            's' => Ok(Function::Asinh),
            'c' => Ok(Function::Acosh),
            't' => Ok(Function::Atanh),
            'x' => Ok(Function::Exp),
            'n' => Ok(Function::Log),
            'F' => Ok(Function::Expm1f),
            'G' => Ok(Function::Log1pf),
            _ => Err(Refusal::Malformed),
        }
    }
}

impl Function {
    // How many digits the function takes and gives.
    pub(crate) fn places(self) -> usize
        ensures value { result ≡ places_of self }
        ensures bound { result ≤ 16 }
    {
        match self {
            Function::Expm1f | Function::Log1pf => 8,
            _ => 16,
        }
    }

    // The bits of the result at the number of the given bits.
    pub(crate) fn result_at(self, bits: u64) -> u64
        requires { bits < 16 ^ places_of self }
        ensures value { result ≡ result_at self bits }
        ensures bound { result < 16 ^ places_of self }
    {
        match self {
            Function::Expm1 => at_f64(expm1, bits),
            Function::Log1p => at_f64(log1p, bits),
            Function::Sinh => at_f64(sinh, bits),
            Function::Cosh => at_f64(cosh, bits),
            Function::Tanh => at_f64(tanh, bits),
            Function::Asinh => at_f64(asinh, bits),
            Function::Acosh => at_f64(acosh, bits),
            Function::Atanh => at_f64(atanh, bits),
            Function::Exp => at_f64(exp, bits),
            Function::Log => at_f64(log, bits),
            Function::Expm1f => at_f32(expm1f, bits),
            Function::Log1pf => at_f32(log1pf, bits),
        }
    }
}
