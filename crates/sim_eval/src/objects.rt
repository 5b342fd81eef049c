//! The types of objects.

ghost use Rattle.std.specs.Prelude.{◌≡◌};
ghost use Rattle.sim_eval.specs.Objects as spec;
ghost use Rattle.sim_eval.specs.Located.{whole};

use crate::environment::Env;
use crate::locating::Located;
use sim_elaborated::Object;
use vhpi_values::{IndexRange, Ty};

fn type_number(env: &Env, object: Object) -> Option<u32>
    ensures { result ≡ spec.type_number env.now object }
{
    match object {
        Object::Generic(number) => match env.generics.get(number as usize) {
            Some(generic) => Some(generic.ty),
            None => None,
        },
        Object::Constant(number) => match env.constants.get(number as usize) {
            Some(constant) => Some(constant.ty),
            None => None,
        },
        Object::Net(number) => match env.nets.get(number as usize) {
            Some(net) => Some(net.ty),
            None => None,
        },
        Object::Variable(number) => match env.variables.get(number as usize) {
            Some(variable) => Some(variable.ty),
            None => None,
        },
        Object::Parameter(_) => None,
    }
}

fn range_of_type(types: &[Ty], ty: u32) -> Option<IndexRange>
    ensures { result ≡ spec.range_of_type types.now ty }
{
    match types.get(ty as usize) {
        Some(ty) => ty.index(),
        None => None,
    }
}

fn range_of(env: &Env, object: Object) -> Option<IndexRange>
    ensures { result ≡ spec.range_of env.now object }
{
    match type_number(env, object) {
        Some(ty) => range_of_type(env.types, ty),
        None => None,
    }
}

/// The whole object.
pub(crate) fn whole(env: &Env, object: Object) -> Located
    ensures { result ≡ whole (spec.range_of env.now object) }
{
    Located {
        first: 0,
        range: range_of(env, object),
    }
}
