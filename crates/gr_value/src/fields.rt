ghost use Rattle.std.specs.Prelude.{◌≡◌, [], ◌∷◌, IfOk, IfSome};
ghost use Rattle.gr_value.specs.ValueText.{value_text};

use crate::{Field, Memory};
use std::alloc::Global;
use std::boxed::Box;
use std::marker::Model;

// Most values have one field, which needs no block of a `Vec`. Of several the text may stand beside them.
#[derive(Drop)]
enum OneOrMany {
    One([Field; 1]),
    Many {
        fields: Vec<Field>,
        text: Option<Box<Vec<u8>>>,
    },
}

/// The fields of a value, which contracts see as their list.
#[derive(Drop)]
pub struct Fields {
    kept: OneOrMany,
}

impl Model for Fields {
    ghost use Rattle.std.specs.Prelude.{List};
    ghost use Rattle.gr_value.specs.declared.value.Field.{Field};

    ghost Value = { List Field };

    ghost use Rattle.gr_value.specs.OneOrMany.{HasText, fields_of};

    ghost view = { λ fields. fields_of fields.kept };

    ghost invariant = { λ fields. HasText fields.kept };
}

impl Fields {
    pub fn none(alloc: Global) -> Fields
        ensures { result ≡ [] }
    {
        Fields {
            kept: OneOrMany::Many {
                fields: Vec::new(alloc),
                text: None,
            },
        }
    }

    pub fn one(field: Field) -> Fields
        ensures { result ≡ field ∷ [] }
    {
        Fields {
            kept: OneOrMany::One([field]),
        }
    }

    pub fn of_vec(mut fields: Vec<Field>) -> Fields
        ensures { result ≡ fields.items }
    {
        if fields.len() == 1
            && let Some(only) = fields.pop()
        {
            return Fields::one(only);
        }
        Fields {
            kept: OneOrMany::Many { fields, text: None },
        }
    }

    /// The same fields, with the text that they print where they are several.
    pub fn with_text(self, alloc: Global, text: &[u8]) -> Result<Fields, Memory>
        requires { text.now ≡ value_text self }
        ensures { IfOk result (λ fields. fields ≡ self) }
    {
        match self.kept {
            OneOrMany::One(only) => Ok(Fields {
                kept: OneOrMany::One(only),
            }),
            OneOrMany::Many { fields, text: _ } => {
                let text = Box::new(alloc, Vec::from_slice(alloc, text)?)?;
                Ok(Fields {
                    kept: OneOrMany::Many {
                        fields,
                        text: Some(text),
                    },
                })
            }
        }
    }

    pub fn as_slice(&self) -> &[Field]
        ensures { result.now ≡ self.now }
    {
        match &self.kept {
            OneOrMany::One(only) => only,
            OneOrMany::Many { fields, .. } => fields.as_slice(),
        }
    }

    /// The text that they print, where it is kept.
    pub fn text(&self) -> Option<&[u8]>
        ensures { IfSome result (λ text. text.now ≡ value_text self.now) }
    {
        match &self.kept {
            OneOrMany::One(_) => None,
            OneOrMany::Many { text: None, .. } => None,
            OneOrMany::Many {
                text: Some(text),
                ..
            } => Some(text.as_slice()),
        }
    }
}
