//! Values of the functions, computed of their definitions.
#![tactic(auto)]

ghost use Rattle.std.specs.Prelude.{◌≡◌};
ghost use Rattle.values.specs.AnnexF.{AnnexF};
ghost use Rattle.values.specs.Known.{known_values, Stand};

use lines::function::Function;

const ZERO: u64 = 0;

const MINUS_ZERO: u64 = 0x8000_0000_0000_0000;

const ONE: u64 = 0x3ff0_0000_0000_0000;

const MINUS_ONE: u64 = 0xbff0_0000_0000_0000;

const INFINITY: u64 = 0x7ff0_0000_0000_0000;

const MINUS_INFINITY: u64 = 0xfff0_0000_0000_0000;

const NAN: u64 = 0x7ff8_0000_0000_0000;

// 2^-60, -2^-30, 2^-30 and -2^25.
const TINY: u64 = 0x3c30_0000_0000_0000;

const MINUS_SMALL: u64 = 0xbe10_0000_0000_0000;

const SMALL: u64 = 0x3e10_0000_0000_0000;

const MINUS_LARGE: u64 = 0xc180_0000_0000_0000;

const MINUS_40: u64 = 0xc044_0000_0000_0000;

const MINUS_800: u64 = 0xc089_0000_0000_0000;

const PLUS_710: u64 = 0x4086_3000_0000_0000;

// A value: the function, and the bits of its argument and of its result there.
#[derive(Clone, Copy, PartialEq, Eq, Debug)]
pub struct Known {
    pub function: Function,
    pub argument: u64,
    pub result: u64,
}

// One row of the table.
// Stays a function: as literals the fourteen rows would take five lines each.
fn row(function: Function, argument: u64, res: u64) -> Known
    ensures { result ≡ record { function = function; argument = argument; result = res } }
{
    Known {
        function,
        argument,
        result: res,
    }
}

// The values that an auditor may ask for first. The contract says which they are, that the definitions have
// them, and that the definitions of all twelve functions have the special values of C11 Annex F.
pub fn known_values() -> [Known; 14]
    ensures rows { result ≡ known_values }
    ensures stand { Stand known_values }
    ensures special { AnnexF }
{
    [
        row(Function::Expm1, MINUS_ZERO, MINUS_ZERO),
        row(Function::Expm1, TINY, TINY),
        row(Function::Expm1, MINUS_40, MINUS_ONE),
        row(Function::Expm1, PLUS_710, INFINITY),
        row(Function::Log1p, MINUS_ONE, MINUS_INFINITY),
        row(Function::Sinh, MINUS_SMALL, MINUS_SMALL),
        row(Function::Cosh, SMALL, ONE),
        row(Function::Tanh, MINUS_800, MINUS_ONE),
        row(Function::Acosh, ONE, ZERO),
        row(Function::Acosh, MINUS_LARGE, NAN),
        row(Function::Atanh, MINUS_ONE, MINUS_INFINITY),
        row(Function::Log, ONE, ZERO),
        // an f32: -20 and -1, -1 and -infinity
        row(Function::Expm1f, 0xc1a0_0000, 0xbf80_0000),
        row(Function::Log1pf, 0xbf80_0000, 0xff80_0000),
    ]
}
