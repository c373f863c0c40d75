ghost use Rattle.std.specs.Prelude.{◌≡◌, ◌∷◌, ◌<◌, ◌≤◌, [], length, MatchOption, IfSome, IsUtf8};
ghost use Rattle.std.specs.Str.{chars};
ghost use Rattle.gr_oql.specs.Like.{is_like, has_end_like, stands_for};
ghost use Rattle.gr_oql.specs.Reader.Walk.{LeadsTo, Shortens, Takes, StepShortens};

/// How far a pattern and a text agree, taken character by character.
enum Walk<'a> {
    /// Up to characters that differ or an end: whether to the end of both.
    End(bool),
    /// Up to a `%`: the pattern behind it, and the text that is left.
    Open(&'a str, &'a str),
}

/// What comes of the first characters of a pattern and a text.
enum LikeStep<'a> {
    /// Nothing is to be taken: whether both were at their end.
    End(bool),
    /// The pattern goes on with `%`: the pattern behind it.
    Percent(&'a str),
    /// They agree: what comes behind each.
    Further(&'a str, &'a str),
}

/// Whether a text is what the pattern stands for.
pub(crate) fn is_like(pattern: &str, text: &str) -> bool
    ensures { result ≡ is_like (chars pattern.now) (chars text.now) }
{
    match follow(pattern, text) {
        Walk::End(agree) => agree,
        Walk::Open(behind, left) => has_end_like(behind, left),
    }
}

// Whether some end of a text is what the pattern stands for. Where a pattern goes on to a further `%`,
// an end that was found earlier leaves the longer text, so no other need be tried.
fn has_end_like(pattern: &str, text: &str) -> bool
    ensures { result ≡ has_end_like (chars pattern.now) (chars text.now) }
{
    let (mut pattern, mut text) = (pattern, text);
    loop {
        match follow(pattern, text) {
            Walk::End(true) => return true,
            Walk::Open(behind, left) => (pattern, text) = (behind, left),
            Walk::End(false) => match first_char(text) {
                None => return false,
                Some((_, rest)) => text = rest,
            },
        }
    }
}

// Takes characters off the fronts of both for as long as they agree.
fn follow<'a>(pattern: &'a str, text: &'a str) -> Walk<'a>
    ensures leads { LeadsTo (chars pattern.now) (chars text.now) result }
    ensures shortens { Shortens pattern.now text.now result }
{
    let (mut pattern, mut text) = (pattern, text);
    loop {
        match first_step(pattern, text) {
            LikeStep::End(agree) => return Walk::End(agree),
            LikeStep::Percent(behind) => return Walk::Open(behind, text),
            LikeStep::Further(behind, rest) => (pattern, text) = (behind, rest),
        }
    }
}

fn first_step<'a>(pattern: &'a str, text: &'a str) -> LikeStep<'a>
    ensures takes { Takes (chars pattern.now) (chars text.now) result }
    ensures shortens { StepShortens pattern.now text.now result }
{
    match (first_char(pattern), first_char(text)) {
        (None, None) => LikeStep::End(true),
        (Some(('%', behind)), _) => LikeStep::Percent(behind),
        (Some((wanted, behind)), Some((met, rest))) if stands_for(wanted, met) => {
            LikeStep::Further(behind, rest)
        }
        _ => LikeStep::End(false),
    }
}

fn stands_for(wanted: char, met: char) -> bool
    ensures { result ≡ stands_for wanted met }
{
    wanted == '_' || wanted == met
}

// The first character, and the text behind it.
fn first_char(text: &str) -> Option<(char, &str)>
    ensures chars { MatchOption result (chars text.now ≡ []) (λ first. chars text.now ≡ first.0 ∷ chars first.1.now) }
    ensures text { IfSome result (λ first. IsUtf8 first.1.now) }
    ensures shorter { MatchOption result (text.now ≡ []) (λ first. length first.1.now < length text.now) }
{
    let mut chars = text.chars();
    let first = chars.next()?;
    Some((first, chars.as_str()))
}
