// Regexps as texts write them.
ghost use Rattle.std.specs.Prelude.{◌≡◌, ◌⊎◌, ◌+◌, ◌<◌, ◌≤◌, ◌^◌, [], Ok, Err, IfOk, MatchResult};
ghost use Rattle.std.specs.Str.{chars};
ghost use Rattle.dired_text.specs.Answers.{IsOrMemory};
ghost use Rattle.emacs_regexp.specs.declared.fault.RegexpFault.TheVariants.{Memory as memory};
ghost use Rattle.emacs_regexp.specs.Reading.{regexp_of, tokens_read, nesting_behind, fault_within, end_of};

use crate::lexing::{Before, before_behind, next_token};
use crate::places::{behind, in_bytes};
use crate::token::Token;
use crate::{Ast, RegexpFault};
use dired_text::Memory;
use std::alloc::Global;

/// The tree that a regexp writes.
///
/// # Errors
/// The fault that comes first, from the left. `Unclosed` comes only where the text has no other fault.
pub fn read(alloc: Global, text: &str) -> Result<Ast, RegexpFault>
    ensures { IsOrMemory memory (regexp_of text.now) result }
{
    let chars = characters(alloc, text)?;
    match read_tokens(alloc, &chars) {
        Ok(tokens) => Ok(Ast::of_tokens(tokens)),
        Err(fault) => Err(in_bytes(text, fault)),
    }
}

fn characters(alloc: Global, text: &str) -> Result<Vec<char>, Memory>
    ensures { IfOk result (λ v. v.items ≡ chars text.now) }
{
    let chars: Vec<char> = text.chars().collect(alloc)?;
    Ok(chars)
}

// The tokens of a text, or its first fault, the place counted in characters.
fn read_tokens(alloc: Global, text: &[char]) -> Result<Vec<Token>, RegexpFault>
    ensures { MatchResult result (λ tokens. tokens_read text.now ≡ Ok tokens.items)
        (λ fault. (fault ≡ memory) ⊎ (tokens_read text.now ≡ Err fault)) }
{
    let mut tokens = Vec::new(alloc);
    let mut nesting = Nesting { depth: 0, first: 0 };
    let mut before = Before::Start;
    let mut rest = text;
    while let Some((c, later)) = rest.split_first() {
        let at = (text.len() - rest.len()) as u64;
        let (token, more) = match next_token(alloc, before, at, *c, later) {
            Ok(read) => read,
            Err(fault) => return Err(nesting.fault(fault)),
        };
        nesting = nesting.behind(at, &token)?;
        before = before_behind(&token);
        tokens.push(token)?;
        rest = behind(later, more);
    }
    nesting.end()?;
    Ok(tokens)
}

// The groups that are open: how many, and where the outermost began.
#[derive(Clone, Copy, Debug)]
struct Nesting {
    depth: usize,
    first: u64,
}

impl Nesting {
    // The groups that are open behind a token at this place.
    fn behind(self, at: u64, token: &Token) -> Result<Nesting, RegexpFault>
        requires { self.depth < 2 ^ 63 }
        ensures nesting { result ≡ nesting_behind at token.now self }
        ensures depth { IfOk result (λ nesting. nesting.depth ≤ self.depth + 1) }
    {
        match token {
            Token::Open(_) if self.depth == 0 => Ok(Nesting {
                depth: 1,
                first: at,
            }),
            Token::Open(_) => Ok(Nesting {
                depth: self.depth + 1,
                first: self.first,
            }),
            Token::Close if self.depth == 0 => Err(RegexpFault::Unopened(at)),
            Token::Close => Ok(Nesting {
                depth: self.depth - 1,
                first: self.first,
            }),
            Token::Atom(_) => Ok(self),
            Token::Repeat(_) => Ok(self),
            Token::Or => Ok(self),
        }
    }

    // A fault of a token. Where a set is not closed and a group is open, the group comes first.
    fn fault(self, fault: RegexpFault) -> RegexpFault
        ensures { result ≡ fault_within self fault }
    {
        match fault {
            RegexpFault::Unclosed(_) if self.depth > 0 => RegexpFault::Unclosed(self.first),
            _ => fault,
        }
    }

    // At the end of the text no group may be open.
    fn end(self) -> Result<(), RegexpFault>
        ensures { MatchResult result (λ _. end_of self ≡ Ok []) (λ fault. end_of self ≡ Err fault) }
    {
        if self.depth > 0 {
            return Err(RegexpFault::Unclosed(self.first));
        }
        Ok(())
    }
}
