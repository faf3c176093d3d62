// The tree of a regexp.
ghost use Rattle.std.specs.Prelude.{◌≡◌, ◌-◌, ◌^◌, min, count_by};
ghost use Rattle.emacs_regexp.specs.Trees.{group_count, is_numbered_open};

use crate::token::Token;
use std::marker::Model;

/// The tree of a regexp.
#[derive(Debug, Drop)]
pub struct Ast {
    tokens: Vec<Token>,
}

impl Model for Ast {
    ghost use Rattle.emacs_regexp.specs.Trees.{Tree, Writes, tree_of};
    ghost use Rattle.emacs_regexp.specs.TreeCode.{flat, unflat, unflat-flat};
    ghost use Rattle.emacs_regexp.specs.contracts.token.Token as token;
    ghost use Rattle.std.specs.Coded.{code_by, coded_list, coded_option};

    ghost Value = { Tree };

    ghost coded = { code_by _ (coded_list (coded_option token.the_row.coded)) flat unflat unflat-flat };

    ghost view = { λ ast. tree_of ast.tokens.items };

    ghost invariant = { λ ast. Writes ast.tokens.items (tree_of ast.tokens.items) };
}

impl Ast {
    ghost use Rattle.std.specs.Prelude.{◌≡◌};
    ghost use Rattle.emacs_regexp.specs.Trees.{Writes, tree_of};

    pub(crate) fn of_tokens(tokens: Vec<Token>) -> Self
        requires { Writes tokens.items (tree_of tokens.items) }
        ensures { result ≡ tree_of tokens.items }
    {
        Ast { tokens }
    }

    pub(crate) fn tokens(&self) -> &[Token]
        ensures { Writes result.now self.now }
    {
        self.tokens.as_slice()
    }
}

/// How many groups have a number. The count stays at its last value.
pub fn groups(ast: &Ast) -> u32
    ensures { result ≡ min (group_count ast.now) (2 ^ 32 - 1) }
{
    let count = numbered(ast.tokens());
    if count > u32::MAX as usize {
        return u32::MAX;
    }
    count as u32
}

fn numbered(tokens: &[Token]) -> usize
    ensures { result ≡ count_by is_numbered_open tokens.now }
{
    tokens.iter().filter(|token| is_numbered(token)).count()
}

fn is_numbered(token: &Token) -> bool
    ensures { result ≡ is_numbered_open token.now }
{
    match token {
        Token::Open(is_numbered) => *is_numbered,
        Token::Atom(_) => false,
        Token::Repeat(_) => false,
        Token::Close => false,
        Token::Or => false,
    }
}
