ghost use Rattle.std.specs.Prelude.{◌≡◌, ◌↔◌, ℕ, List, Some, Ok, Err};
ghost use Rattle.std.specs.List.{AllByRecursion};
ghost use Rattle.gr_value.specs.declared.scalar.Scalar.{Scalar};
ghost use Rattle.gr_value.specs.declared.value.Field.{Field};
ghost use Rattle.gr_value.specs.Fields.{field_of};
ghost use Rattle.gr_oql.specs.declared.condition.Relation.TheVariants.{Equal};
ghost use Rattle.gr_oql.specs.declared.must.Must.{Must};
ghost use Rattle.gr_oql.specs.declared.truth.Truth.TheVariants.{Holds};
ghost use Rattle.gr_oql.specs.declared.fault.OqlFault.{OqlFault};
ghost use Rattle.gr_oql.specs.FirstFault.{IsFault};
ghost use Rattle.gr_oql.specs.Grammar.{Spells};
ghost use Rattle.gr_oql.specs.Matching.{matches};
ghost use Rattle.gr_oql.specs.Must.{must_of, IsMet};
ghost use Rattle.gr_oql.specs.Question.{Question};
ghost use Rattle.gr_oql.specs.Questions.{question_of};
ghost use Rattle.gr_oql.specs.Truth.{both_compared};

/// What a text asks as one answer of the text alone, which other definitions cite, is the query that the
/// text spells by the grammar, and else the first fault by it: each text has just one of these.
pub fn texts_ask_by_the_grammar()
    ensures spelled { (text : List ℕ) (q : Question) → question_of text ≡ Ok q → Spells text q }
    ensures only { (text : List ℕ) (q : Question) → Spells text q → question_of text ≡ Ok q }
    ensures stops { (text : List ℕ) (fault : OqlFault) → question_of text ≡ Err fault → IsFault text fault }
    ensures only_fault { (text : List ℕ) (fault : OqlFault) → IsFault text fault → question_of text ≡ Err fault }
{}

/// Where a query matches a value, each field that it sets equal to a literal by AND alone is there and is
/// that scalar. A field is met just where its comparison by `=` holds.
pub fn matches_meet_what_they_must()
    ensures met { (question : Question) (fields : List Field) → matches question fields ≡ Holds → AllByRecursion (IsMet fields) (must_of question) }
    ensures compared { (fields : List Field) (must : Must) → both_compared Equal (field_of must.field fields) (Some must.equal) ≡ Holds ↔ IsMet fields must }
{}
