ghost use Rattle.std.specs.Prelude.{◌≡◌, List, Option};
ghost use Rattle.std.specs.Option.{option_copied};
ghost use Rattle.std.specs.Str.{chars};
ghost use Rattle.gr_oql.specs.Matching.{scalar_at, like_truth, among, test_truth, tree_truth, matches};
ghost use Rattle.gr_oql.specs.View.{tree_of};

use crate::condition::{Condition, Operand, Relation, Test};
use crate::like::is_like;
use crate::truth::both_compared;
use crate::{Query, Truth};
use gr_value::{Scalar, Value};

impl Operand {
    fn scalar<'a>(&'a self, value: &'a Value) -> Option<&'a Scalar>
        ensures { option_copied result ≡ scalar_at value.now self.now }
    {
        match self {
            Operand::Field(name) => value.field_named(name),
            Operand::Literal(scalar) => Some(scalar),
        }
    }
}

fn like_truth(scalar: Option<&Scalar>, pattern: &str) -> Truth
    ensures { result ≡ like_truth (option_copied scalar.entry) pattern.now }
{
    match scalar {
        Some(Scalar::Text(text)) => Truth::from(is_like(pattern, text.as_str())),
        _ => Truth::Undefined,
    }
}

fn among(scalar: Option<&Scalar>, literals: &[Scalar]) -> Truth
    ensures { result ≡ among (option_copied scalar.entry) literals.now }
{
    let mut found = Truth::Fails;
    for literal in literals {
        found = found.or(both_compared(Relation::Equal, scalar, Some(literal)));
        if found == Truth::Holds {
            return found;
        }
    }
    found
}

impl Test {
    fn truth(&self, value: &Value) -> Truth
        ensures { result ≡ test_truth value.now self.now }
    {
        match self {
            Test::Defined(name) => Truth::from(value.field_named(name).is_some()),
            Test::Undefined(name) => Truth::from(value.field_named(name).is_none()),
            Test::Like { field, pattern } => {
                like_truth(value.field_named(field), pattern.as_str())
            }
            Test::Among { operand, literals } => among(operand.scalar(value), literals.as_slice()),
            Test::Compare {
                left,
                relation,
                right,
            } => both_compared(*relation, left.scalar(value), right.scalar(value)),
        }
    }
}

impl Condition {
    fn truth(&self, value: &Value) -> Truth
        ensures { result ≡ tree_truth value.now (tree_of self.now) }
    {
        match self {
            Condition::Any(parts) => {
                let mut found = Truth::Fails;
                for part in parts {
                    found = found.or(part.truth(value));
                    if found == Truth::Holds {
                        return found;
                    }
                }
                found
            }
            Condition::All(parts) => {
                let mut found = Truth::Holds;
                for part in parts {
                    found = found.and(part.truth(value));
                    if found == Truth::Fails {
                        return found;
                    }
                }
                found
            }
            Condition::Not(part) => part.truth(value).not(),
            Condition::Test(test) => test.truth(value),
        }
    }
}

impl Query {
    /// Whether the query's condition holds of a value.
    pub fn matches(&self, value: &Value) -> Truth
        ensures { result ≡ matches self.now value.now }
    {
        match &self.parts.clauses.condition {
            None => Truth::Holds,
            Some(condition) => condition.truth(value),
        }
    }
}
