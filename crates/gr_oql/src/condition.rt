use gr_value::{ItemList, Scalar, Text};

/// What a value must meet. Contracts see it as a tree.
#[derive(Drop)]
pub(crate) enum Condition {
    /// One of these, joined by OR.
    Any(Vec<Condition>),
    /// Each of these, joined by AND.
    All(Vec<Condition>),
    Not(Box<Condition>),
    Test(Test),
}

/// A condition with no other condition within.
#[derive(Drop)]
pub(crate) enum Test {
    Defined(Text),
    Undefined(Text),
    Like {
        field: Text,
        pattern: Text,
    },
    Among {
        operand: Operand,
        literals: ItemList<Scalar>,
    },
    Compare {
        left: Operand,
        relation: Relation,
        right: Operand,
    },
}

/// What a test looks at: a value's field, or a scalar.
#[derive(Drop)]
pub(crate) enum Operand {
    Field(Text),
    Literal(Scalar),
}

#[derive(Clone, Copy, Debug, PartialEq, Eq)]
pub(crate) enum Relation {
    Equal,
    Different,
    Less,
    LessOrEqual,
    Greater,
    GreaterOrEqual,
}
