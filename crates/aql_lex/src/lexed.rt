//! What stands at a place of a command.

#![tactic(auto)]

use db_model::Token;

/// What stands at a place of a command, after the white space there.
#[derive(Clone, Copy, Debug, PartialEq, Eq)]
pub enum Lexed {
    /// The longest token there, in the bytes `from..to` of the command.
    Token { token: Token, from: u16, to: u16 },
    /// Nothing but white space.
    End,
    /// Bytes that begin no token.
    Bad,
}
