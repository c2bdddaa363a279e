// Reading derivations.
ghost use Rattle.std.specs.Prelude.{◌≤◌, IfOk, IfErr, length};
ghost use Rattle.pipes_reader.specs.Texts.{ReadAs};
ghost use Rattle.pipes_grammar.specs.Grammar.{HasSourceName};
ghost use Rattle.pipes_query.specs.Queries.{names_of};
ghost use Rattle.pipes_derivation.specs.declared.derivation.Derivation.{Derivation as ADerivation};
ghost use Rattle.pipes_derivation.specs.Reading as spec;
ghost use Rattle.pipes_derivation.specs.Texts.{IsFileOfDerivation, DerivationCause};

use crate::Derivation;
use crate::step::read_steps;
use pipes_grammar::read_plan;
use pipes_query::{Query, names_of};
use pipes_reader::{Cursor, ParseFault, Parser, read_text};
use pipes_rules::Steps;
use pipes_token::ReadFault;
use pipes_tuple::Text;
use std::alloc::Global;
use std::marker::Model;

// What reads derivations over sources with these names.
#[derive(Drop)]
struct SourceNames {
    names: Vec<Text>,
}

impl Model for SourceNames {
    ghost use Rattle.std.specs.Prelude.{◌≤◌, List, ℕ, length};

    ghost Value = { List (List ℕ) };

    ghost view = { λ s. s.names.items };

    ghost invariant = { λ s. length s.names.items ≤ 16 };
}

impl Parser<Derivation> for SourceNames {
    ghost reads = { spec.parse_derivation };

    #[tactic(auto, unfolding(crate::specs::Reading::parse_derivation))]
    fn parse(&self, alloc: Global, cursor: &mut Cursor<'_>) -> Result<Derivation, ParseFault> {
        let list = read_steps(alloc, cursor)?;
        let (plan, rest) = read_plan(alloc, self.names.as_slice(), cursor.rest())?;
        *cursor = Cursor::new(rest);
        Ok(Derivation {
            steps: Steps::new(list.steps).unwrap(),
            plan,
        })
    }
}

/// The derivation of the text, over the query's sources: steps, and the plan that is to come of
/// them. A text that is too long or no derivation is refused with the first place at which no
/// derivation goes on, and the cause.
#[tactic(auto, using(crate::proofs::DerivationTexts::derivation_found, crate::proofs::DerivationTexts::derivation_only, crate::proofs::DerivationTexts::derivation_refused))]
pub fn read_derivation(alloc: Global, query: &Query, bytes: &[u8]) -> Result<Derivation, ReadFault>
    requires { 1 ≤ length query.now.sources }
    // What is read is the text's derivation.
    ensures found { IfOk result (λ derivation. IsFileOfDerivation query.now derivation bytes.now) }
    // The text's derivation is read, unless memory runs out.
    ensures only { (derivation : ADerivation)
        → IsFileOfDerivation query.now derivation bytes.now → ReadAs derivation result }
    // A refusal is the first that the text has, and it has one, where one of the sources has a name
    // that texts have, as in each query that was read.
    ensures refused { HasSourceName (names_of query.now.sources)
        → IfErr result (λ fault. DerivationCause query.now bytes.now fault) }
{
    let names = names_of(alloc, query.sources.as_slice())?;
    read_text(alloc, &SourceNames { names }, bytes)
}
