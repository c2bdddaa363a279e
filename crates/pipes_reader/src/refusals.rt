// Why a token is refused.
ghost use Rattle.std.specs.Prelude.{◌≡◌};
ghost use Rattle.pipes_reader.specs.Reading.{refused_by, run_out};
ghost use Rattle.pipes_reader.specs.Reading as reading;

use pipes_token::{Refusal, TextWhy, Token, TokenKind};

/// Why a token is refused where the grammar doesn't allow it.
pub fn refused(token: &Token) -> Refusal
    ensures { result ≡ refused_by token.now.kind token.now.at }
{
    let why = match token.kind {
        TokenKind::Long => TextWhy::Long,
        TokenKind::Byte => TextWhy::Byte,
        TokenKind::End => TextWhy::Ended,
        _ => TextWhy::Token,
    };
    Refusal { at: token.at, why }
}

/// Why a token is refused that is refused whatever it is.
pub fn refused_as(refusal: Refusal, token: &Token) -> Refusal
    ensures { result ≡ reading.refused_as refusal token.now.kind token.now.at }
{
    match token.kind {
        TokenKind::Byte | TokenKind::End => refused(token),
        _ => refusal,
    }
}

/// The refusal where no token is left.
pub fn ran_out() -> Refusal
    ensures { result ≡ run_out }
{
    Refusal {
        at: 0,
        why: TextWhy::Ended,
    }
}

/// The refusal of an entry too many, which begins here.
#[tactic(auto, unfolding(crate::specs::Reading::too_many))]
pub fn too_many(tokens: &[Token]) -> Refusal
    ensures { result ≡ reading.too_many tokens.now }
{
    match tokens {
        [] => ran_out(),
        [token, ..] => refused_as(
            Refusal {
                at: token.at,
                why: TextWhy::Many,
            },
            token,
        ),
    }
}

/// The refusal of a level too deep, which begins here, in a whole that begins at a place.
#[tactic(auto, unfolding(crate::specs::Reading::too_deep))]
pub fn too_deep(whole: usize, tokens: &[Token]) -> Refusal
    ensures { result ≡ reading.too_deep whole tokens.now }
{
    match tokens {
        [] => ran_out(),
        [token, ..] => refused_as(
            Refusal {
                at: whole,
                why: TextWhy::Deep,
            },
            token,
        ),
    }
}

/// The place of the first token.
pub fn place_of(tokens: &[Token]) -> usize
    ensures { result ≡ reading.place_of tokens.now }
{
    match tokens {
        [] => 0,
        [token, ..] => token.at,
    }
}
