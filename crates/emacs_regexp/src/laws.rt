// What the definitions of regexps mean.
ghost use Rattle.std.specs.Prelude.{◌≡◌, ◌↔◌, Ok};
ghost use Rattle.emacs_regexp.specs.Trees.{Tree};
ghost use Rattle.emacs_regexp.specs.Reading.{regexp_of, IsRegexpOf};

/// A text writes a regexp exactly where the tokens of the text are those of the regexp. So it writes at most one.
pub fn tokens_write_the_tree(text: &str)
    ensures { (tree : Tree) → (regexp_of text.now ≡ Ok tree) ↔ IsRegexpOf text.now tree }
{}
