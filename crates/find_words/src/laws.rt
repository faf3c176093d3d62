// Laws of predicates.
ghost use Rattle.std.specs.Prelude.{◌≡◌, ℕ};
ghost use Rattle.find_words.specs.Expressions.{Expression};
ghost use Rattle.find_words.specs.Grammar.{IsFirstFault, Reads};
ghost use Rattle.find_words.specs.Words.{Words};

/// A text either writes one predicate at most, or can't go on at one word.
pub fn a_text_is_one_predicate()
    ensures one { (words : Words) (e f : Expression) → Reads words e → Reads words f → e ≡ f }
    ensures place { (words : Words) (j k : ℕ) → IsFirstFault words j → IsFirstFault words k → j ≡
        k }
    ensures either { (words : Words) (e : Expression) (k : ℕ) → Reads words e →
        IsFirstFault words k → ⊥ }
{}
