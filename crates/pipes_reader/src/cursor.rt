// What is left of a text's tokens. After a refusal it is not read on.
ghost use Rattle.std.specs.Prelude.{◌≡◌, IfOk, Some};
ghost use Rattle.pipes_reader.specs.Reading.{after_first, take_first, GivesFrom};

use crate::{ParseFault, ran_out};
use pipes_token::{Refusal, Token};
use std::marker::Model;

/// What is left of a text's tokens. After a refusal it is not read on.
#[derive(Drop)]
pub struct Cursor<'a> {
    rest: &'a [Token],
}

impl<'a> Model for Cursor<'a> {
    ghost use Rattle.std.specs.Prelude.{List};
    ghost use Rattle.pipes_token.specs.declared.token.Token.{Token};

    ghost Value = { List Token };

    ghost view = { λ c. c.rest.now };
}

impl<'a> Cursor<'a> {
    /// At the first of these tokens.
    pub fn new(rest: &'a [Token]) -> Cursor<'a>
        ensures { result ≡ rest.now }
    {
        Cursor { rest }
    }

    /// The tokens that are left.
    pub fn rest(&self) -> &'a [Token]
        ensures { result.now ≡ self.now }
    {
        self.rest
    }

    /// Goes on after the first token, where there is one.
    pub fn skip(&mut self)
        ensures { self.new ≡ after_first self.old }
    {
        if let [_, rest @ ..] = self.rest {
            self.rest = rest;
        }
    }

    /// Takes the first token as this value, or refuses it where there is none.
    #[tactic(auto, unfolding(crate::specs::Reading::take_first))]
    pub fn take<T: Drop>(&mut self, value: Option<T>, refusal: Refusal) -> Result<T, ParseFault>
        ensures exact { GivesFrom (λ x. x) (take_first value refusal) self.old self.new result }
        ensures given { IfOk result (λ x. value ≡ Some x) }
    {
        let [_, rest @ ..] = self.rest else {
            return Err(ParseFault::Refused(ran_out()));
        };
        match value {
            Some(value) => {
                self.rest = rest;
                Ok(value)
            }
            None => Err(ParseFault::Refused(refusal)),
        }
    }
}
