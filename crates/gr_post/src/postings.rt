// What a courier posted, of which contracts alone speak.
ghost use Rattle.std.specs.Prelude.{◌≡◌, ◌++◌, ◌∷◌, []};

use crate::mail::{Mail, Posting};
use logbook::{Opening, Rule, Seen, Start};
use std::marker::Model;

// Any list may stand in the log.
pub(crate) struct AnyList;

impl Rule<Posting, u64> for AnyList {
    ghost use Rattle.std.specs.Prelude.{[]};
    ghost use base.Fml.{ftrue};

    ghost holds = { λ cells log. Unit {0} };

    ghost first = { [] };

    ghost hinted = { λ n log. Unit {0} };

    ghost shows = { λ log. [] };

    ghost keeps = { λ names log. ftrue };

    ghost moves = { λ ask before after answer. Unit {0} };
}

/// What was posted, the oldest first. It takes no room: no running code can read it.
#[derive(Drop)]
pub(crate) struct Postings {
    seen: Seen<Posting, u64, AnyList>,
}

impl Model for Postings {
    ghost use Rattle.std.specs.Prelude.{List};
    ghost use Rattle.gr_post.specs.declared.mail.Posting.{Posting};

    ghost Value = { List Posting };

    ghost view = { λ postings. postings.seen.log };
}

// A posting behind those before it.
#[derive(Drop)]
struct Next<'a> {
    before: &'a Postings,
    mail: &'a Mail,
    to: u8,
}

impl<'a> Opening<Next<'a>, Posting> for AnyList {
    ghost use Rattle.std.specs.Prelude.{◌++◌, ◌∷◌, []};

    ghost log = { λ count next. next.before.now ++ record { mail = next.mail.now; to = next.to } ∷ [] };
}

impl Postings {
    // Nothing was posted.
    pub(crate) fn new() -> Postings
        ensures { result ≡ [] }
    {
        let (seen, _, _) = Seen::open(Start::alone(), 0, 0);
        Postings { seen }
    }

    // One posting more.
    pub(crate) fn push(&mut self, mail: &Mail, to: u8)
        ensures { self.new ≡ self.old ++ record { mail = mail.now; to = to } ∷ [] }
    {
        let next = Next {
            before: self,
            mail,
            to,
        };
        let (seen, _) = Seen::open_row::<Next, AnyList>(&next, Start::alone(), 0);
        self.seen = seen;
    }
}
