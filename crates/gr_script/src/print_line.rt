ghost use Rattle.std.specs.Prelude.{◌≡◌, ◌++◌, ◌∷◌, [], ℕ, List, Ok, OnOk, IfSome, option_copied, codes, flat_map, All};
ghost use Rattle.std.specs.Fmt.{decimal};
ghost use Rattle.gr_value.specs.KeyBytes.{IsKey};
ghost use Rattle.gr_value.specs.ValueText.{value_text};
ghost use Rattle.gr_value.specs.Values.{IsValue};
ghost use Rattle.std.specs.Str.{IsUtf8};
ghost use Rattle.gr_oql.specs.Grammar.{Spells};
ghost use Rattle.gr_script.specs.declared.items.Setting.{Setting as ASetting};
ghost use Rattle.gr_script.specs.declared.line.Act.TheVariants.{Peek};
ghost use Rattle.gr_script.specs.declared.saying.Saying.{Saying as ASaying};
ghost use Rattle.gr_script.specs.Forms.{fields, word};
ghost use Rattle.gr_script.specs.declared.forms.LineKind.TheVariants.{Deliver};
ghost use Rattle.gr_script.specs.Items.{items_at};
ghost use Rattle.gr_script.specs.Printed.{line_text, ask_text, query_ask_text, named_text, ask_saying, query_saying, act_saying, saying_in, IsAskKept, IsQueryKept, IsActKept};
ghost use Rattle.gr_script.specs.Printed.{IsLineKept};
ghost use Rattle.gr_script.specs.Printing.{saying_text};
ghost use Rattle.gr_script.specs.ReadBack.{IsReadBack};
ghost use Rattle.gr_script.specs.Rests.{IsRest};
ghost use Rattle.gr_script.specs.Suiting.{AllSuit, AreRests};

use crate::forms::LineKind;
use crate::operation::{first_value, operation_of, second_value};
use crate::{Act, Line};
use gr_history::{Ask, QueryAsk};
use gr_oql::Query;
use gr_value::{Key, Memory, Value};
use itoa::Buffer;
use std::alloc::Global;

// The text of a query that is read from a line is the rest of that line.
fn rests_read()
    ensures { (setting : ASetting) (saying : ASaying) (text : List ℕ) → IsRest text
        → items_at setting (fields saying.kind) text ≡ Ok saying.items → AreRests saying.items }
{}

// A line is read as what it was spelled to say.
fn lines_read_back()
    ensures { (setting : ASetting) (saying : ASaying) → AllSuit setting (fields saying.kind) saying.items
        → IsReadBack setting saying (saying_text saying) }
{}

pub(crate) fn put_number(number: u64, out: &mut Vec<u8>) -> Result<(), Memory>
    ensures { OnOk result (out.new.items ≡ out.old.items ++ decimal number) }
{
    let mut digits = Buffer::new();
    out.extend_from_slice(digits.format(number).as_bytes())?;
    Ok(())
}

/// A field behind others.
pub(crate) fn put_field(text: &[u8], out: &mut Vec<u8>) -> Result<(), Memory>
    ensures { OnOk result (out.new.items ≡ out.old.items ++ codes " " ++ text.now) }
{
    out.push(b' ')?;
    out.extend_from_slice(text)?;
    Ok(())
}

pub(crate) fn put_number_field(number: u64, out: &mut Vec<u8>) -> Result<(), Memory>
    ensures { OnOk result (out.new.items ≡ out.old.items ++ codes " " ++ decimal number) }
{
    out.push(b' ')?;
    put_number(number, out)?;
    Ok(())
}

fn put_value_field(alloc: Global, value: &Value, out: &mut Vec<u8>) -> Result<(), Memory>
    ensures printed { OnOk result (out.new.items ≡ out.old.items ++ codes " " ++ value_text value.now) }
    ensures kept { IsValue value.now }
{
    let _fields = value.fields();
    out.push(b' ')?;
    value.print_to(alloc, out)?;
    Ok(())
}

// The word of a line and its key, or the name of its query.
#[inline(always)]
fn put_word(word: &[u8], key: &Key, out: &mut Vec<u8>) -> Result<(), Memory>
    ensures printed { OnOk result (out.new.items ≡ out.old.items ++ (word.now ++ (codes " " ++ key.now))) }
    ensures kept { IsKey key.now }
{
    let name = key.bytes();
    out.extend_from_slice(word)?;
    put_field(name, out)?;
    Ok(())
}

#[inline(always)]
fn put_client_field(client: u8, out: &mut Vec<u8>) -> Result<(), Memory>
    ensures { OnOk result (out.new.items ≡ out.old.items ++ (decimal client ++ codes " ")) }
{
    put_number(u64::from(client), out)?;
    out.push(b' ')?;
    Ok(())
}

// A value that a call may name.
#[inline(always)]
fn put_named(alloc: Global, value: Option<&Value>, out: &mut Vec<u8>) -> Result<(), Memory>
    ensures printed { OnOk result (out.new.items ≡ out.old.items ++ named_text (option_copied value.entry)) }
    ensures kept { OnOk result (IfSome (option_copied value.entry) IsValue) }
{
    if let Some(value) = value {
        put_value_field(alloc, value, out)?;
    }
    Ok(())
}

/// What is asked, as a line has it behind the client's number.
pub fn put_ask(alloc: Global, ask: &Ask, out: &mut Vec<u8>) -> Result<(), Memory>
    ensures printed { OnOk result (out.new.items ≡ out.old.items ++ ask_text ask.now) }
    ensures kept { OnOk result (IsAskKept ask.now) }
{
    put_word(operation_of(ask).word(), ask.key(), out)?;
    put_named(alloc, first_value(ask), out)?;
    put_named(alloc, second_value(ask), out)?;
    Ok(())
}

fn put_call(alloc: Global, client: u8, ask: &Ask, out: &mut Vec<u8>) -> Result<(), Memory>
    ensures printed { OnOk result (out.new.items ≡ out.old.items ++ saying_text (ask_saying client ask.now)) }
    ensures kept { OnOk result (IsAskKept ask.now) }
{
    put_client_field(client, out)?;
    put_ask(alloc, ask, out)?;
    Ok(())
}

fn put_query_field(query: &Query, out: &mut Vec<u8>) -> Result<(), Memory>
    ensures printed { OnOk result (out.new.items ≡ out.old.items ++ codes " " ++ query.now.text) }
    ensures spelled { Spells query.now.text query.now }
    ensures readable { IsUtf8 query.now.text }
{
    put_field(query.text().as_bytes(), out)?;
    Ok(())
}

/// What is asked of a query, as a line has it behind the client's number.
pub fn put_query_ask(ask: &QueryAsk, out: &mut Vec<u8>) -> Result<(), Memory>
    ensures printed { OnOk result (out.new.items ≡ out.old.items ++ query_ask_text ask.now) }
    ensures kept { OnOk result (IsQueryKept ask.now) }
{
    match ask {
        QueryAsk::Enrol { name, query } => {
            put_word(LineKind::Open.word(), name, out)?;
            put_query_field(query, out)?;
        }
        QueryAsk::Stop { name } => put_word(LineKind::Stop.word(), name, out)?,
        QueryAsk::Close { name } => put_word(LineKind::Close.word(), name, out)?,
        QueryAsk::Fetch { name } => put_word(LineKind::Fetch.word(), name, out)?,
    }
    Ok(())
}

fn put_query(client: u8, ask: &QueryAsk, out: &mut Vec<u8>) -> Result<(), Memory>
    ensures printed { OnOk result (out.new.items ≡ out.old.items ++ saying_text (query_saying client ask.now)) }
    ensures kept { OnOk result (IsQueryKept ask.now) }
{
    put_client_field(client, out)?;
    put_query_ask(ask, out)?;
    Ok(())
}

fn put_peek(client: u8, key: &Key, out: &mut Vec<u8>) -> Result<(), Memory>
    ensures printed { OnOk result (out.new.items ≡ out.old.items ++ saying_text (act_saying client (Peek key.now))) }
    ensures kept { OnOk result (IsKey key.now) }
{
    put_client_field(client, out)?;
    put_word(LineKind::Peek.word(), key, out)?;
    Ok(())
}

fn put_act(alloc: Global, client: u8, act: &Act, out: &mut Vec<u8>) -> Result<(), Memory>
    ensures printed { OnOk result (out.new.items ≡ out.old.items ++ saying_text (act_saying client act.now)) }
    ensures kept { OnOk result (IsActKept act.now) }
{
    match act {
        Act::Call(ask) => put_call(alloc, client, ask, out)?,
        Act::Query(ask) => put_query(client, ask, out)?,
        Act::Peek(key) => put_peek(client, key, out)?,
    }
    Ok(())
}

/// A line that is no step, up to its first number.
pub(crate) fn put_other(kind: LineKind, number: u64, out: &mut Vec<u8>) -> Result<(), Memory>
    ensures { OnOk result (out.new.items ≡ out.old.items ++ (word kind ++ (codes " " ++ decimal number))) }
{
    out.extend_from_slice(kind.word())?;
    put_number_field(number, out)?;
    Ok(())
}

fn put_deliver(to: u8, client: u8, seq: u32, out: &mut Vec<u8>) -> Result<(), Memory>
    ensures { OnOk result (out.new.items ≡ out.old.items
        ++ (word Deliver ++ (codes " " ++ (decimal to ++ (codes " " ++ (decimal client ++ 0x2E ∷ decimal seq)))))) }
{
    put_other(LineKind::Deliver, u64::from(to), out)?;
    put_number_field(u64::from(client), out)?;
    out.push(b'.')?;
    put_number(u64::from(seq), out)?;
    Ok(())
}

// A line on which a client leaves or comes back.
fn put_moment(client: u8, kind: LineKind, moment: u32, out: &mut Vec<u8>) -> Result<(), Memory>
    ensures { OnOk result (out.new.items ≡ out.old.items
        ++ (decimal client ++ (codes " " ++ (word kind ++ (codes " " ++ decimal moment))))) }
{
    put_number(u64::from(client), out)?;
    put_field(kind.word(), out)?;
    put_number_field(u64::from(moment), out)?;
    Ok(())
}

fn put_unended(alloc: Global, line: &Line, out: &mut Vec<u8>) -> Result<(), Memory>
    ensures printed { OnOk result (out.new.items ≡ out.old.items ++ saying_text (saying_in line.now)) }
    ensures kept { OnOk result (IsLineKept line.now) }
{
    match line {
        Line::Step { client, act, .. } => put_act(alloc, *client, act, out)?,
        Line::Deliver { to, client, seq } => put_deliver(*to, *client, *seq, out)?,
        Line::Report { member } => put_other(LineKind::Report, u64::from(*member), out)?,
        Line::Hear { by, of, number } => {
            put_other(LineKind::Hear, u64::from(*by), out)?;
            put_number_field(u64::from(*of), out)?;
            put_number_field(u64::from(*number), out)?;
        }
        Line::Sweep { member, moment } => {
            put_other(LineKind::Sweep, u64::from(*member), out)?;
            put_number_field(*moment, out)?;
        }
        Line::Join { member, from } => {
            put_other(LineKind::Join, u64::from(*member), out)?;
            put_number_field(u64::from(*from), out)?;
        }
        Line::Depart { member } => put_other(LineKind::Depart, u64::from(*member), out)?,
        Line::Leave { client, moment } => put_moment(*client, LineKind::Leave, *moment, out)?,
        Line::Back { client, moment } => put_moment(*client, LineKind::Back, *moment, out)?,
    }
    Ok(())
}

/// A line with its line feed.
#[tactic(auto, unfolding(crate::specs::Printed::line_text))]
pub(crate) fn put_line(alloc: Global, line: &Line, out: &mut Vec<u8>) -> Result<(), Memory>
    ensures printed { OnOk result (out.new.items ≡ out.old.items ++ line_text line.now) }
    ensures kept { OnOk result (IsLineKept line.now) }
{
    put_unended(alloc, line, out)?;
    out.push(b'\n')?;
    Ok(())
}

/// The lines behind a script's heading.
pub(crate) fn put_lines(alloc: Global, lines: &[Line], out: &mut Vec<u8>) -> Result<(), Memory>
    ensures printed { OnOk result (out.new.items ≡ out.old.items ++ flat_map line_text lines.now) }
    ensures kept { OnOk result (All IsLineKept lines.now) }
{
    for line in lines {
        put_line(alloc, line, out)?;
    }
    Ok(())
}
