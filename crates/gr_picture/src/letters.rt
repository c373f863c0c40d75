/// A number in decimal digits.
pub fn number(text: &str) -> Option<u64> {
    text.parse::<u64>().ok()
}

/// The first words of a text, and what stands behind them and the space there.
pub fn after_words(text: &str, words: usize) -> Option<(&str, &str)> {
    let mut left = words;
    for (place, letter) in text.char_indices() {
        if letter == ' ' {
            left = left.saturating_sub(1);
            if left == 0 {
                let (front, rest) = text.split_at_checked(place)?;
                return Some((front, rest.strip_prefix(' ')?));
            }
        }
    }
    if left == 1 { Some((text, "")) } else { None }
}

/// What stands before the last words of a text, and those.
pub fn last_words(text: &str, words: usize) -> Option<(&str, &str)> {
    let spaces = text.chars().filter(|letter| *letter == ' ').count();
    if spaces < words {
        return None;
    }
    after_words(text, spaces - words + 1)
}

/// The first place at which a mark stands in a text, but not inside quotes.
pub fn outside_quotes(text: &str, mark: &str) -> Option<usize> {
    let (mut quoted, mut escaped) = (false, false);
    for (place, letter) in text.char_indices() {
        if !quoted {
            let (_, rest) = text.split_at_checked(place)?;
            if rest.starts_with(mark) {
                return Some(place);
            }
        }
        if letter == '"' && !escaped {
            quoted = !quoted;
        }
        escaped = quoted && letter == '\\' && !escaped;
    }
    None
}

/// The first letters of a text, and whether there are more.
pub fn shortened(text: &str, most: usize) -> (&str, bool) {
    match text.char_indices().nth(most) {
        Some(_) => (first_letters(text, most.saturating_sub(3)), true),
        None => (text, false),
    }
}

fn first_letters(text: &str, count: usize) -> &str {
    match text.char_indices().nth(count) {
        Some((place, _)) => match text.split_at_checked(place) {
            Some((front, _)) => front,
            None => text,
        },
        None => text,
    }
}
