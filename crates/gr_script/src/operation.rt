ghost use Rattle.std.specs.Prelude.{◌≡◌, ◌++◌, ◌∷◌, IfSome, option_copied};
ghost use Rattle.gr_script.specs.Operations.{operation_word, ask_of_key, ask_of_value, ask_of_pair, ask_with};
ghost use Rattle.gr_script.specs.Operations.{operation_called, wording, operation_in, first_in, second_in};

use crate::text::spaced;
use gr_history::Ask;
use gr_value::{Key, Value};

/// An operation that names a key alone.
#[derive(Clone, Copy)]
pub enum Keyed {
    Get,
    Destroy,
    Invalidate,
}

/// An operation that names a key and a value.
#[derive(Clone, Copy)]
pub enum Valued {
    Put,
    PutIfAbsent,
    Replace,
    Remove,
}

/// An operation that names a key and two values.
#[derive(Clone, Copy)]
pub enum Paired {
    ReplaceIf,
}

/// An operation on a key, by how many values it names beside it.
#[derive(Clone, Copy)]
pub enum Operation {
    OfKey(Keyed),
    OfValue(Valued),
    OfPair(Paired),
}

const OPERATIONS: [Operation; 8] = [
    Operation::OfKey(Keyed::Get),
    Operation::OfKey(Keyed::Destroy),
    Operation::OfKey(Keyed::Invalidate),
    Operation::OfValue(Valued::Put),
    Operation::OfValue(Valued::PutIfAbsent),
    Operation::OfValue(Valued::Replace),
    Operation::OfValue(Valued::Remove),
    Operation::OfPair(Paired::ReplaceIf),
];

impl Keyed {
    pub(crate) fn ask(self, key: Key) -> Ask
        ensures { result ≡ ask_of_key self key }
    {
        match self {
            Keyed::Get => Ask::Get { key },
            Keyed::Destroy => Ask::Destroy { key },
            Keyed::Invalidate => Ask::Invalidate { key },
        }
    }
}

impl Valued {
    pub(crate) fn ask(self, key: Key, value: Value) -> Ask
        ensures { result ≡ ask_of_value self key value }
    {
        match self {
            Valued::Put => Ask::Put { key, value },
            Valued::PutIfAbsent => Ask::PutIfAbsent { key, value },
            Valued::Replace => Ask::Replace { key, value },
            Valued::Remove => Ask::Remove { key, value },
        }
    }
}

impl Paired {
    pub(crate) fn ask(self, key: Key, old: Value, new: Value) -> Ask
        ensures { result ≡ ask_of_pair self key old new }
    {
        match self {
            Paired::ReplaceIf => Ask::ReplaceIf { key, old, new },
        }
    }
}

impl Operation {
    /// How it is spelled.
    pub(crate) fn word(self) -> &'static [u8]
        ensures { result.now ≡ operation_word self }
    {
        match self {
            Operation::OfKey(Keyed::Get) => b"get",
            Operation::OfKey(Keyed::Destroy) => b"destroy",
            Operation::OfKey(Keyed::Invalidate) => b"invalidate",
            Operation::OfValue(Valued::Put) => b"put",
            Operation::OfValue(Valued::PutIfAbsent) => b"putIfAbsent",
            Operation::OfValue(Valued::Replace) => b"replace",
            Operation::OfValue(Valued::Remove) => b"remove",
            Operation::OfPair(Paired::ReplaceIf) => b"replaceIf",
        }
    }

    /// The operation with this word.
    pub(crate) fn called(word: &[u8]) -> Option<Operation>
        ensures { result ≡ operation_called word.now }
    {
        OPERATIONS
            .iter()
            .copied()
            .find(|operation| word == operation.word())
    }

    /// What is asked with it, where there are as many values as it names.
    pub(crate) fn ask(self, key: Key, first: Option<Value>, second: Option<Value>) -> Option<Ask>
        ensures { result ≡ ask_with self key first second }
    {
        match self {
            Operation::OfKey(operation) => Some(operation.ask(key)),
            Operation::OfValue(operation) => Some(operation.ask(key, first?)),
            Operation::OfPair(operation) => Some(operation.ask(key, first?, second?)),
        }
    }
}

/// With which operation something is asked.
pub(crate) fn operation_of(ask: &Ask) -> Operation
    ensures { result ≡ operation_in (wording ask.now) }
{
    match ask {
        Ask::Get { .. } => Operation::OfKey(Keyed::Get),
        Ask::Put { .. } => Operation::OfValue(Valued::Put),
        Ask::PutIfAbsent { .. } => Operation::OfValue(Valued::PutIfAbsent),
        Ask::Replace { .. } => Operation::OfValue(Valued::Replace),
        Ask::ReplaceIf { .. } => Operation::OfPair(Paired::ReplaceIf),
        Ask::Destroy { .. } => Operation::OfKey(Keyed::Destroy),
        Ask::Remove { .. } => Operation::OfValue(Valued::Remove),
        Ask::Invalidate { .. } => Operation::OfKey(Keyed::Invalidate),
    }
}

/// The first value that is named.
pub(crate) fn first_value(ask: &Ask) -> Option<&Value>
    ensures { option_copied result ≡ first_in (wording ask.now) }
{
    match ask {
        Ask::Put { value, .. }
        | Ask::PutIfAbsent { value, .. }
        | Ask::Replace { value, .. }
        | Ask::ReplaceIf { old: value, .. }
        | Ask::Remove { value, .. } => Some(value),
        Ask::Get { .. } | Ask::Destroy { .. } | Ask::Invalidate { .. } => None,
    }
}

/// The second value that is named.
pub(crate) fn second_value(ask: &Ask) -> Option<&Value>
    ensures { option_copied result ≡ second_in (wording ask.now) }
{
    match ask {
        Ask::ReplaceIf { new, .. } => Some(new),
        _ => None,
    }
}

// The operation whose word stands in front of the first space, and what stands behind that.
#[tactic(auto, using(crate::proofs::Operations::called_word))]
fn operation_spaced(text: &[u8]) -> Option<(Operation, &[u8])>
    ensures { IfSome result (λ parts. text.now ≡ operation_word parts.0 ++ 0x20 ∷ parts.1.now) }
{
    let (word, rest) = spaced(text)?;
    let operation = Operation::called(word)?;
    Some((operation, rest))
}

/// The operation whose word stands in front, and what stands behind the space that follows it. To look at
/// the bytes of the words that most lines have costs less than to compare with each word.
pub(crate) fn operation_in(text: &[u8]) -> Option<(Operation, &[u8])>
    ensures { IfSome result (λ parts. text.now ≡ operation_word parts.0 ++ 0x20 ∷ parts.1.now) }
{
    match text {
        [b'g', b'e', b't', b' ', rest @ ..] => Some((Operation::OfKey(Keyed::Get), rest)),
        [b'p', b'u', b't', b' ', rest @ ..] => Some((Operation::OfValue(Valued::Put), rest)),
        [b'r', b'e', b'm', b'o', b'v', b'e', b' ', rest @ ..] => {
            Some((Operation::OfValue(Valued::Remove), rest))
        }
        [b'r', b'e', b'p', b'l', b'a', b'c', b'e', b' ', rest @ ..] => {
            Some((Operation::OfValue(Valued::Replace), rest))
        }
        [b'd', b'e', b's', b't', b'r', b'o', b'y', b' ', rest @ ..] => {
            Some((Operation::OfKey(Keyed::Destroy), rest))
        }
        _ => operation_spaced(text),
    }
}
