ghost use Rattle.std.specs.Prelude.{◌≡◌, ℕ, List, false, map, filter};
ghost use Rattle.gr_post.specs.declared.mail.Posting.{Posting};
ghost use Rattle.gr_post.specs.Mails.{has_end, IsClosed};
ghost use Rattle.gr_post.specs.Plan.{Draw, is_named, draws, delivered};
ghost use Rattle.gr_post.specs.Laws.{DeliversEach};

/// The trouble plan sends each mail to each of its members once or twice, and one `End` behind all.
pub fn each_mail_is_delivered()
    ensures mails { (n first k : ℕ) (past : List Posting) →
        map (λ d. d.mail) (draws n first k past) ≡ map (λ p. p.mail) (filter (λ p. is_named p.to k) past) }
    ensures times { (ds : List Draw) → DeliversEach ds }
    ensures end { (ds : List Draw) → has_end (map (λ d. d.mail) ds) ≡ false → IsClosed (delivered ds) }
{}
