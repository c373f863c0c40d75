ghost use Rattle.std.specs.Prelude.{◌≡◌, ◌++◌, OnOk, codes, decimal, string_bytes, true, false};
ghost use Rattle.gr_picture.specs.Elements.{attribute_text, closing};
ghost use Rattle.gr_picture.specs.Escapes.{escaped, escaped_letter};

use crate::halt::Halt;
use itoa::Buffer;

// Puts what is spelled as it is to stand.
fn put(out: &mut String, text: &str) -> Result<(), Halt>
    ensures { OnOk result (string_bytes out.new ≡ string_bytes out.old ++ text.now) }
{
    out.push_str(text)?;
    Ok(())
}

// Puts a letter last, inside quotes or not. What XML can't have is replaced.
fn put_letter(out: &mut String, letter: char, quoted: bool) -> Result<(), Halt>
    ensures { OnOk result (string_bytes out.new ≡ string_bytes out.old ++ escaped_letter quoted letter) }
{
    match letter {
        '&' => out.push_str("&amp;")?,
        '<' => out.push_str("&lt;")?,
        '>' => out.push_str("&gt;")?,
        '"' if quoted => out.push_str("&quot;")?,
        '\0'..='\u{1F}' | '\u{FFFE}' | '\u{FFFF}' => out.push('\u{FFFD}')?,
        _ => out.push(letter)?,
    }
    Ok(())
}

fn put_escaped(out: &mut String, text: &str, quoted: bool) -> Result<(), Halt>
    ensures { OnOk result (string_bytes out.new ≡ string_bytes out.old ++ escaped quoted text.now) }
{
    for letter in text.chars() {
        put_letter(out, letter, quoted)?;
    }
    Ok(())
}

/// Begins a tag.
pub fn begin(out: &mut String, tag: &str) -> Result<(), Halt>
    ensures { OnOk result (string_bytes out.new ≡ string_bytes out.old ++ (codes "<" ++ tag.now)) }
{
    put(out, "<")?;
    put(out, tag)
}

/// Puts an attribute into a tag that was begun.
pub fn attribute(out: &mut String, name: &str, value: &str) -> Result<(), Halt>
    ensures { OnOk result (string_bytes out.new ≡ string_bytes out.old ++ attribute_text (record { name = name.now; value = value.now })) }
{
    put(out, " ")?;
    put(out, name)?;
    put(out, "=\"")?;
    put_escaped(out, value, true)?;
    put(out, "\"")
}

/// The same of a number.
pub fn number(out: &mut String, name: &str, value: usize) -> Result<(), Halt>
    ensures { OnOk result (string_bytes out.new ≡ string_bytes out.old ++ attribute_text (record { name = name.now; value = decimal value })) }
{
    let mut digits = Buffer::new();
    attribute(out, name, digits.format(value))
}

/// Ends a tag that has nothing inside.
pub fn alone(out: &mut String) -> Result<(), Halt>
    ensures { OnOk result (string_bytes out.new ≡ string_bytes out.old ++ codes "/>") }
{
    put(out, "/>")
}

/// Ends a tag, behind which its content comes.
pub fn inside(out: &mut String) -> Result<(), Halt>
    ensures { OnOk result (string_bytes out.new ≡ string_bytes out.old ++ codes ">") }
{
    put(out, ">")
}

/// Ends an element.
pub fn close(out: &mut String, tag: &str) -> Result<(), Halt>
    ensures { OnOk result (string_bytes out.new ≡ string_bytes out.old ++ closing tag.now) }
{
    put(out, "</")?;
    put(out, tag)?;
    put(out, ">")
}

/// Puts a text.
pub fn words(out: &mut String, text: &str) -> Result<(), Halt>
    ensures { OnOk result (string_bytes out.new ≡ string_bytes out.old ++ escaped false text.now) }
{
    put_escaped(out, text, false)
}

/// Puts a line feed.
pub fn feed(out: &mut String) -> Result<(), Halt>
    ensures { OnOk result (string_bytes out.new ≡ string_bytes out.old ++ codes "\n") }
{
    put(out, "\n")
}
