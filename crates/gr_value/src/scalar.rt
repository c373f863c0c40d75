ghost use Rattle.std.specs.Prelude.{◌≡◌};

use crate::{Copied, Memory, Text};
use std::alloc::Global;

/// What a field holds: nothing, a truth value, a whole number or a text.
#[derive(Drop)]
pub enum Scalar {
    Null,
    Bool(bool),
    Int(i64),
    Text(Text),
}

impl PartialEq for Scalar {
    ghost use Rattle.gr_value.specs.Scalars.{scalar_eq};
    ghost use Rattle.std.specs.Cmp.{partial_equiv_from_equiv};
    ghost use Rattle.gr_value.specs.Sameness.{scalar_eq_equiv};

    ghost eq = { scalar_eq };

    ghost laws = { partial_equiv_from_equiv scalar_eq_equiv };

    fn eq(&self, other: &Scalar) -> bool {
        match (self, other) {
            (Scalar::Null, Scalar::Null) => true,
            (Scalar::Bool(one), Scalar::Bool(two)) => one == two,
            (Scalar::Int(one), Scalar::Int(two)) => one == two,
            (Scalar::Text(one), Scalar::Text(two)) => one == two,
            _ => false,
        }
    }
}

impl Eq for Scalar {
    ghost use Rattle.gr_value.specs.Sameness.{scalar_eq_equiv};

    ghost laws = { scalar_eq_equiv };
}

impl Copied for Scalar {
    fn copy(&self, alloc: Global) -> Result<Scalar, Memory> {
        match self {
            Scalar::Null => Ok(Scalar::Null),
            Scalar::Bool(truth) => Ok(Scalar::Bool(*truth)),
            Scalar::Int(number) => Ok(Scalar::Int(*number)),
            Scalar::Text(text) => Ok(Scalar::Text(text.copy(alloc)?)),
        }
    }
}
