ghost use Rattle.std.specs.Prelude.{◌≡◌, ◌↔◌, IsTrue, IfOk, IfSome, option_copied};
ghost use Rattle.gr_value.specs.Fields.{field_of, value_eq};
ghost use Rattle.gr_value.specs.Values.{IsValue};
ghost use Rattle.gr_value.specs.ValueText.{value_text};

use crate::fields::Fields;
use crate::{Copied, Memory, Scalar, Text};
use std::alloc::Global;
use std::marker::Model;
use std::sync::Arc;

/// The most bytes of the text of a value.
pub(crate) const MOST_BYTES: usize = 1024;

/// A field of a value.
#[derive(Drop)]
pub struct Field {
    pub name: Text,
    pub scalar: Scalar,
}

const _: () = prove!(size_of::<Field>() == 40);

impl PartialEq for Field {
    ghost use Rattle.gr_value.specs.Fields.{field_eq};
    ghost use Rattle.std.specs.Cmp.{partial_equiv_from_equiv};
    ghost use Rattle.gr_value.specs.Sameness.{field_eq_equiv};

    ghost eq = { field_eq };

    ghost laws = { partial_equiv_from_equiv field_eq_equiv };

    fn eq(&self, other: &Field) -> bool {
        self.name == other.name && self.scalar == other.scalar
    }
}

impl Eq for Field {
    ghost use Rattle.gr_value.specs.Sameness.{field_eq_equiv};

    ghost laws = { field_eq_equiv };
}

/// A value: fields with scalars, names ascending and distinct. Contracts see it as the list of its
/// fields. Copies share them.
#[derive(Drop)]
pub struct Value {
    shared: Arc<Fields>,
}

impl Model for Value {
    ghost use Rattle.std.specs.Prelude.{List};
    ghost use Rattle.gr_value.specs.declared.value.Field.{Field};

    ghost Value = { List Field };

    ghost use Rattle.gr_value.specs.Values.{IsValue};

    ghost view = { λ value. value.shared.value };

    ghost invariant = { λ value. IsValue value.shared.value };
}

impl Value {
    pub(crate) fn of_fields(alloc: Global, fields: Fields) -> Result<Value, Memory>
        requires { IsValue fields }
        ensures { IfOk result (λ value. value ≡ fields) }
    {
        let shared = Arc::new(alloc, fields)?;
        Ok(Value { shared })
    }

    pub fn fields(&self) -> &[Field]
        ensures fields { result.now ≡ self.now }
        ensures value { IsValue self.now }
    {
        self.shared.as_slice()
    }

    // The text that it prints, where it is kept.
    pub(crate) fn own_text(&self) -> Option<&[u8]>
        ensures { IfSome result (λ text. text.now ≡ value_text self.now) }
    {
        self.shared.text()
    }

    /// The scalar of the field with this name.
    pub fn field(&self, name: &str) -> Option<&Scalar>
        ensures { option_copied result ≡ field_of name.now self.now }
    {
        let field = self
            .fields()
            .iter()
            .find(|field| field.name.bytes() == name.as_bytes())?;
        Some(&field.scalar)
    }

    /// The same of a name that is held as a text.
    #[tactic(auto, using(crate::proofs::Looking::found_here, crate::proofs::Looking::passed))]
    pub fn field_named(&self, name: &Text) -> Option<&Scalar>
        ensures { option_copied result ≡ field_of name.now self.now }
    {
        for field in self.fields() {
            if field.name == *name {
                return Some(&field.scalar);
            }
        }
        None
    }

    /// Whether both have the same fields.
    #[tactic(auto, using(crate::specs::Sameness::value_eq_decides))]
    pub fn same(&self, other: &Value) -> bool
        ensures test { result ≡ value_eq self.now other.now }
        ensures equal { IsTrue result ↔ (self.now ≡ other.now) }
    {
        self.fields() == other.fields()
    }
}

impl Copied for Value {
    fn copy(&self, _alloc: Global) -> Result<Value, Memory> {
        let shared = Arc::try_clone(&self.shared)?;
        Ok(Value { shared })
    }
}
