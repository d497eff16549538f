//! What a token opens.
ghost use Rattle.std.specs.Prelude.{◌≡◌, IsTrue, false};
ghost use Rattle.json.specs.Reads.{token_of};
ghost use Rattle.json.specs.Token.{begin_array, begin_object};

use json::Token;

pub(crate) fn opens_array(token: &Token<'_>) -> bool
    ensures yes { IsTrue result → token_of token.now ≡ begin_array }
    ensures no { result ≡ false → token_of token.now ≡ begin_array → ⊥ }
{
    matches!(token, Token::BeginArray)
}

pub(crate) fn opens_object(token: &Token<'_>) -> bool
    ensures yes { IsTrue result → token_of token.now ≡ begin_object }
    ensures no { result ≡ false → token_of token.now ≡ begin_object → ⊥ }
{
    matches!(token, Token::BeginObject)
}
