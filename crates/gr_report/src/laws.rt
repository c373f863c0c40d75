ghost use Rattle.std.specs.Prelude.{◌≡◌, ◌++◌, ℕ, codes, decimal};
ghost use Rattle.gr_history.specs.declared.ask.Ask.{Ask};
ghost use Rattle.gr_history.specs.declared.query_ask.QueryAsk.{QueryAsk};
ghost use Rattle.gr_script.specs.declared.line.Act.TheVariants.{Call, Query};
ghost use Rattle.gr_script.specs.declared.line.Line.TheVariants.{Step};
ghost use Rattle.gr_script.specs.Printed.{line_text, ask_text, query_ask_text};

/// What a history says was asked is what the line of the script says behind the client's number.
#[tactic(auto, using(crate::proofs::Asked::call_line, crate::proofs::Asked::query_line))]
pub fn steps_read_as_their_lines()
    ensures calls { (client seq : ℕ) (ask : Ask) → line_text (Step client seq (Call ask)) ≡ decimal client ++ codes " " ++ ask_text ask ++ codes "\n" }
    ensures queries { (client seq : ℕ) (ask : QueryAsk) → line_text (Step client seq (Query ask)) ≡ decimal client ++ codes " " ++ query_ask_text ask ++ codes "\n" }
{}
