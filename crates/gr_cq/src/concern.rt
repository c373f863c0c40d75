ghost use Rattle.std.specs.Prelude.{◌≡◌, option_copied};
ghost use Rattle.gr_cq.specs.Concern.{is_scalar, meets, can_concern};

use gr_oql::{Must, Turned};
use gr_value::{Scalar, Value};

// Whether a field is there, and is this scalar.
fn is_scalar(field: Option<&Scalar>, equal: &Scalar) -> bool
    ensures { result ≡ is_scalar (option_copied field.entry) equal.now }
{
    match field {
        None => false,
        Some(scalar) => scalar == equal,
    }
}

fn meets(value: Option<&Value>, must: &Must) -> bool
    ensures { result ≡ meets (option_copied value.entry) must.now }
{
    match value {
        None => false,
        Some(value) => is_scalar(value.field_named(&must.field), &must.equal),
    }
}

/// Whether a change can concern a query whose values must have this.
pub fn can_concern(must: &[Must], turned: &Turned) -> bool
    ensures { result ≡ can_concern must.now turned.now }
{
    match must.first() {
        None => true,
        Some(first) => meets(turned.old.as_ref(), first) || meets(turned.new.as_ref(), first),
    }
}
