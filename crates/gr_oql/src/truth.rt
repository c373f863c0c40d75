ghost use Rattle.std.specs.Prelude.{◌≡◌};
ghost use Rattle.std.specs.Option.{option_copied};
ghost use Rattle.gr_oql.specs.Truth.{not_truth, and_truth, or_truth, truth_of, by_order, by_sameness, compared, both_compared};

use crate::condition::Relation;
use gr_value::Scalar;
use std::cmp::Ordering;

/// What a condition says of a value.
#[derive(Clone, Copy, Debug, PartialEq, Eq)]
pub enum Truth {
    Holds,
    Fails,
    Undefined,
}

impl Truth {
    pub(crate) fn not(self) -> Truth
        ensures { result ≡ not_truth self }
    {
        match self {
            Truth::Holds => Truth::Fails,
            Truth::Fails => Truth::Holds,
            Truth::Undefined => Truth::Undefined,
        }
    }

    pub(crate) fn and(self, other: Truth) -> Truth
        ensures { result ≡ and_truth self other }
    {
        match (self, other) {
            (Truth::Fails, _) | (_, Truth::Fails) => Truth::Fails,
            (Truth::Holds, Truth::Holds) => Truth::Holds,
            _ => Truth::Undefined,
        }
    }

    // One of two holds where not both fail.
    pub(crate) fn or(self, other: Truth) -> Truth
        ensures { result ≡ or_truth self other }
    {
        self.not().and(other.not()).not()
    }
}

impl From<bool> for Truth {
    ghost from_gives = { λ answer truth. truth ≡ truth_of answer };

    fn from(answer: bool) -> Truth {
        if answer { Truth::Holds } else { Truth::Fails }
    }
}

fn by_order(relation: Relation, order: Ordering) -> Truth
    ensures { result ≡ by_order relation order }
{
    Truth::from(match relation {
        Relation::Equal => order.is_eq(),
        Relation::Different => order.is_ne(),
        Relation::Less => order.is_lt(),
        Relation::LessOrEqual => order.is_le(),
        Relation::Greater => order.is_gt(),
        Relation::GreaterOrEqual => order.is_ge(),
    })
}

fn by_sameness(relation: Relation, same: bool) -> Truth
    ensures { result ≡ by_sameness relation same }
{
    match relation {
        Relation::Equal => Truth::from(same),
        Relation::Different => Truth::from(!same),
        _ => Truth::Undefined,
    }
}

fn compared(relation: Relation, one: &Scalar, two: &Scalar) -> Truth
    ensures { result ≡ compared relation one.now two.now }
{
    match (one, two) {
        (Scalar::Int(one), Scalar::Int(two)) => by_order(relation, one.cmp(two)),
        (Scalar::Text(one), Scalar::Text(two)) => {
            by_order(relation, one.bytes().cmp(two.bytes()))
        }
        (Scalar::Bool(one), Scalar::Bool(two)) => by_sameness(relation, one == two),
        (Scalar::Null, Scalar::Null) => by_sameness(relation, true),
        (Scalar::Null, _) | (_, Scalar::Null) => by_sameness(relation, false),
        _ => Truth::Undefined,
    }
}

/// Compares two scalars, where both are there.
pub(crate) fn both_compared(relation: Relation, one: Option<&Scalar>, two: Option<&Scalar>) -> Truth
    ensures { result ≡ both_compared relation (option_copied one.entry) (option_copied two.entry) }
{
    match (one, two) {
        (Some(one), Some(two)) => compared(relation, one, two),
        _ => Truth::Undefined,
    }
}
