ghost use Rattle.std.specs.Prelude.{List};
ghost use Rattle.gr_script.specs.declared.line.Line.{Line as ALine};
ghost use Rattle.gr_script.specs.Expanded.{expansion};
ghost use Rattle.gr_script.specs.Rules.{Heading, IsScript};

/// What is played of a script is a script too.
#[tactic(auto, using(crate::proofs::StillScripts::still_script, crate::proofs::Numbered::number_of))]
pub fn expanded_scripts_are_scripts()
    ensures { (heading : Heading) (lines : List ALine) → IsScript heading lines → IsScript heading (expansion lines) }
{}
