//! Parses a unit's tokens.

ghost use Rattle.std.specs.Prelude.{◌≡◌, ◌≤◌, length, IfOk, IfErr};
ghost use Rattle.cx_syntax.specs.declared.lexeme.Lexeme as lexemes;
ghost use Rattle.cx_unit_parser.specs.Parsing.{EndsInEnd, Explains, IsTree, seen};
ghost use Rattle.cx_unit_parser.specs.Parts.{Placed};

use crate::names::UnitNames;
use cx_base::{Diag, List, Memory, Rule};
use cx_grammar::ParseStop;
use cx_parser_decls::parse;
use cx_syntax::{Lexeme, lexemes};
use cx_token_defs::Token;
use cx_tree::Unit;
use cx_type_names::type_names;
use std::alloc::Global;

/// Why there is no tree.
#[derive(Debug, Drop)]
pub enum ParseAnswer {
    /// The first token that no unit within 512 levels goes on with: `syntax` where no unit does at all, else `nesting`.
    Fault(Diag),
    Memory,
}

impl From<Memory> for ParseAnswer {
    ghost use Rattle.std.specs.Prelude.{◌≡◌};
    ghost use Rattle.cx_unit_parser.specs.declared.parsing.ParseAnswer.TheVariants as answer;

    ghost from_gives = { λ _ e. e ≡ answer.Memory };

    fn from(_: Memory) -> ParseAnswer {
        ParseAnswer::Memory
    }
}

// The tokens as the grammar sees them.
fn seen(alloc: Global, tokens: List<Token>) -> Result<List<Lexeme>, Memory>
    ensures { IfOk result (λ lexemes. lexemes ≡ seen tokens) }
{
    let names = type_names(alloc, &tokens)?;
    lexemes(alloc, &UnitNames { set: &names }, tokens)
}

// The fault at the token from which on there are so many.
fn placed(alloc: Global, lexemes: &[Lexeme], rule: Rule, left: usize) -> Diag
    requires range { (1 ≤ left) × (left ≤ length lexemes.now) }
    ensures { Placed lexemes.now rule left result }
{
    let lexeme = &lexemes[lexemes.len() - left];
    Diag {
        span: lexeme.span,
        rule,
        frames: List::new(alloc),
    }
}

/// The one tree of a unit's tokens, the last of which is that of the source's end ([gram], [basic.link]).
pub fn parse_unit(alloc: Global, tokens: List<Token>) -> Result<Unit, ParseAnswer>
    requires { EndsInEnd tokens }
    ensures tree { IfOk result (IsTree tokens) }
    ensures fault { IfErr result (Explains tokens) }
{
    let seen = seen(alloc, tokens)?;
    let lexemes = seen.as_slice();
    match parse(alloc, lexemes) {
        Ok(unit) => Ok(unit),
        Err(ParseStop::Fault(rule, left)) => {
            Err(ParseAnswer::Fault(placed(alloc, lexemes, rule, left)))
        }
        Err(ParseStop::Memory) => Err(ParseAnswer::Memory),
    }
}
