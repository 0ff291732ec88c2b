//! The first tokens of a command, of which it is made.

#![tactic(auto)]

ghost use Rattle.std.specs.Prelude.{◌≡◌, [], ◌∷◌, ◌++◌};
ghost use Rattle.aql_parse.specs.Built.{first_tokens};

use db_model::{Few, Token};

/// The first 42 tokens of a command: no command has more in front of its condition, whose nodes are
/// taken while its tokens are read.
pub type Head = Few<Token, 42>;

/// Keeps a token after those that came, if it is one of the first 42.
pub fn keep(head: &mut Head, token: &Token)
    ensures { head.new ≡ first_tokens (head.old ++ token.now ∷ []) }
{
    if head.len() < 42 {
        head.push(*token);
    }
}
