// The tokens between the two sides of an expression.
ghost use Rattle.std.specs.Prelude.{◌≡◌};
ghost use Rattle.pipes_grammar.specs.Ops.{op_of_sign, op_of_keyword};
ghost use Rattle.pipes_grammar.specs.Ops as spec;

use pipes_plan::Op;
use pipes_token::{Keyword, Sign, TokenKind};

fn op_of_sign(sign: Sign) -> Option<Op>
    ensures { result ≡ op_of_sign sign }
{
    match sign {
        Sign::Plus => Some(Op::Add),
        Sign::Minus => Some(Op::Sub),
        Sign::Star => Some(Op::Mul),
        Sign::Equal => Some(Op::Eq),
        Sign::Less => Some(Op::Lt),
        Sign::AtMost => Some(Op::Le),
        _ => None,
    }
}

fn op_of_keyword(keyword: Keyword) -> Option<Op>
    ensures { result ≡ op_of_keyword keyword }
{
    match keyword {
        Keyword::And => Some(Op::And),
        Keyword::Or => Some(Op::Or),
        _ => None,
    }
}

// The operator that a token is.
pub fn op_of(kind: &TokenKind) -> Option<Op>
    ensures { result ≡ spec.op_of kind.now }
{
    match kind {
        TokenKind::Sign(sign) => op_of_sign(*sign),
        TokenKind::Keyword(keyword) => op_of_keyword(*keyword),
        _ => None,
    }
}
