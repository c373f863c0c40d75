ghost use Rattle.std.specs.Prelude.{◌≡◌, List, OnOk, OnErr};
ghost use Rattle.gr_oql.specs.declared.event.Turned.{Turned};

use gr_cq::Turned;
use gr_value::Memory;

/// How the keys that a deed turns are published, each deed's before the shard has it.
pub trait Publisher {
    /// What is published, deed by deed.
    type Published;

    /// What is told of all that was published.
    type Note;

    /// What publishing takes.
    type By;

    ghost note: { Self.Published → Self.Note };

    ghost adds: { Self.Note → List Turned → Self.Note };

    ghost ready: { Self.Published → Self.By → Type 0 };

    /// Publishes what the next deed turns. After a refusal there is no such deed.
    fn publish(
        published: &mut Self::Published,
        by: &Self::By,
        turned: &[Turned],
    ) -> Result<(), Memory>
        requires { ready published.old by.now }
        ensures ok { OnOk result (note published.new ≡ adds (note published.old) turned.now) }
        ensures err { OnErr result (note published.new ≡ note published.old) };
}
