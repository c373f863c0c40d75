ghost use Rattle.std.specs.Prelude.{false, MatchResult};
ghost use Rattle.gr_script.specs.Said.{script_of};
ghost use Rattle.gr_script.specs.Sayings.{Ends};
ghost use Rattle.gr_world.specs.Played.{IsPlayed};

use crate::departing::Departing;
use gr_durable::{Expander, expanded_scripts_are_scripts};
use gr_history::Record;
use gr_script::{Feed, Form, ScriptEnd};
use gr_world::{Stage, laws_of_courses, records_keep_the_laws};
use std::alloc::Global;

// Each line is moved into its deed, so no list of lines is made; a fault at a later line ends the call,
// and what was played is let go. What the lines say isn't kept either: a `Feed` has the text and how many
// of its lines were taken in, which fixes all that was said.
/// Plays the script that a text is as `replay` does, expanded, each line as soon as it is read, and keeps
/// none of them.
pub fn play_text(alloc: Global, text: &[u8]) -> Result<Record, ScriptEnd>
    ensures { MatchResult result (IsPlayed text.now) (λ end. Ends end (script_of false text.now)) }
{
    let mut feed = Feed::new(alloc, text, Form::Replay)?;
    let mut next = feed.next(alloc)?;
    let bare = feed.heading(alloc)?;
    let mut departing = Departing::new(alloc, &bare)?;
    let mut expander = Expander::new(alloc, bare.clients.len())?;
    while let Some(line) = next {
        let stage = Stage {
            alloc,
            script: &bare,
        };
        let turn = expander.take(alloc, line)?;
        departing.turn(stage, turn)?;
        next = feed.next(alloc)?;
    }
    expanded_scripts_are_scripts();
    laws_of_courses();
    records_keep_the_laws();
    let Departing { world, .. } = departing;
    Ok(world.finish(alloc, &bare)?)
}
