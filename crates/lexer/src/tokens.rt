//! The tokens of a whole text.
ghost use Rattle.std.specs.Prelude.{◌≡◌, ℕ, ◌<◌, ◌≤◌, ◌⊎◌, List, length, IfOk, Ok, Err, MatchResult};
ghost use Rattle.faults.specs.declared.Fault.TheVariants.{ModelTooLong, Memory};
ghost use Rattle.lexer.specs.Tokens.{Lexeme, lexemes, all_read};
ghost use Rattle.lexer.specs.Layout.{Laid, Answers, Respaced, SameTokens};

use super::token::{Token, next_token};
use faults::Fault;
use std::alloc::Global;

/// The largest model text.
pub const MOST_BYTES: usize = 16_384;

/// Refuses a text that is too long.
pub fn check_length(text: &[u8]) -> Result<(), Fault>
    ensures { MatchResult result (λ _. length text.now ≤ 16384) (λ f. (f ≡ ModelTooLong) × (16384 < length text.now)) }
{
    if text.len() > MOST_BYTES {
        return Err(Fault::ModelTooLong);
    }
    Ok(())
}

/// The tokens of a text, in their order.
pub fn tokens<'a>(heap: Global, text: &'a [u8]) -> Result<Vec<Token<'a>>, Fault>
    ensures answer { Answers text.now (all_read result) }
    ensures only { (ts : List Lexeme) → length text.now ≤ 16384 → Laid text.now 0 ts → (all_read result ≡ Ok ts) ⊎ (all_read result ≡ Err Memory) }
    ensures respaced { IfOk result (λ v. (other : List ℕ) → Respaced text.now other (lexemes v) → SameTokens (lexemes v) other) }
{
    check_length(text)?;
    let mut found = Vec::new(heap);
    let mut at = 0;
    // A loop, since an iterator would keep the same place in a struct of its own and be no plainer.
    while let Some((token, end)) = next_token(text, at)? {
        found.push(token)?;
        at = end;
    }
    Ok(found)
}
