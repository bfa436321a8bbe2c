ghost use Rattle.std.specs.Prelude.{◌≡◌, Some, IfOk, true};
ghost use Rattle.bit_values.specs.Values as value;
ghost use Rattle.scope_meaning.specs.Scope.{genvar_constant};
ghost use Rattle.scope_meaning.specs.ScopeTrees.{seen_constant};
ghost use Rattle.elab_names.specs.Frames.{IsGenvar};
ghost use Rattle.elab_heads.specs.Passes.{IsGenvarValue};

use bit_values::Bits;
use cov_types::{ByteText, NoMemory};
use elab_constants::ConstantValue;
use elab_names::PassGenvar;
use elab_types::Constant;
use std::alloc::Global;

/// The 32 bits of an integer.
fn bits_of(integer: i32) -> Bits
    ensures width { result.width ≡ 32 }
    ensures value { result.bits ≡ value.modulo 32 integer }
{
    let size = Bits::new(32, u128::from(integer.unsigned_abs()));
    if integer < 0 {
        return bit_values::neg(size);
    }
    size
}

/// The integer that 32 bits are, read as signed.
pub(crate) fn integer_of(of: Bits) -> i32
    requires { of.width ≡ 32 }
    ensures { result ≡ value.signed 32 of.bits }
{
    if of.bits < 2_147_483_648 {
        return of.bits as i32;
    }
    -1 - ((4_294_967_295 - of.bits) as i32)
}

/// A genvar's value as a constant of 32 bits, signed.
pub(crate) fn genvar_value(integer: i32) -> ConstantValue
    ensures { IsGenvarValue integer result }
{
    ConstantValue {
        value: bits_of(integer),
        signed: true,
    }
}

/// The genvar of a pass with its value.
pub fn pass_genvar(alloc: Global, name: &[u8], value: i32) -> Result<PassGenvar, NoMemory>
    ensures { IfOk result (λ g. IsGenvar (Some (genvar_constant name.now value)) (Some g)) }
{
    let name = ByteText::from_slice(alloc, name)?;
    Ok(PassGenvar {
        name,
        value: genvar_value(value),
    })
}

/// The genvar of a pass as a constant of its scope.
pub fn pass_constant(alloc: Global, name: &[u8], value: i32) -> Result<Constant, NoMemory>
    ensures { IfOk result (λ c. seen_constant c ≡ genvar_constant name.now value) }
{
    let name = ByteText::from_slice(alloc, name)?;
    let ConstantValue { value, signed } = genvar_value(value);
    Ok(Constant {
        name,
        value,
        signed,
    })
}
