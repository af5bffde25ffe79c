//! Sets of tokens.

use cx_ahead::{AnyModifier, StartsAssign, StartsTyped};
use cx_grammar::Test;
use cx_syntax::{Class, Lexeme};

/// What an enumeration, and no variable, has behind `enum` ([dcl.enum]).
pub struct FollowsEnum;

impl Test<Lexeme> for FollowsEnum {
    ghost use Rattle.cx_syntax.specs.Classes.{class_at};
    ghost use Rattle.cx_syntax_stmts.specs.Sets.{follows_enum};

    ghost holds = { λ _ t. follows_enum (class_at t) };

    fn test(&self, token: &Lexeme) -> bool {
        matches!(
            token.class,
            Class::Class | Class::Struct | Class::OpenBracket | Class::Colon | Class::OpenBrace
        )
    }
}

/// What it has behind its name.
pub struct FollowsEnumName;

impl Test<Lexeme> for FollowsEnumName {
    ghost use Rattle.cx_syntax.specs.Classes.{class_at};
    ghost use Rattle.cx_syntax_stmts.specs.Sets.{follows_enum_name};

    ghost holds = { λ _ t. follows_enum_name (class_at t) };

    fn test(&self, token: &Lexeme) -> bool {
        matches!(
            token.class,
            Class::Colon | Class::Semicolon | Class::OpenBrace
        )
    }
}

/// What a label begins with ([stmt.label]).
pub struct StartsLabel;

impl Test<Lexeme> for StartsLabel {
    ghost use Rattle.cx_syntax.specs.Classes.{class_at};
    ghost use Rattle.cx_syntax_stmts.specs.Sets.{starts_label};

    ghost holds = { λ _ t. starts_label (class_at t) };

    fn test(&self, token: &Lexeme) -> bool {
        matches!(token.class, Class::Case | Class::Default)
    }
}

/// What a statement begins with that is no expression, behind its attributes ([stmt.stmt]).
pub struct StartsOtherStmt;

impl Test<Lexeme> for StartsOtherStmt {
    ghost use Rattle.cx_syntax.specs.Classes.{class_at};
    ghost use Rattle.cx_syntax_stmts.specs.Sets.{starts_other_stmt};

    ghost holds = { λ _ t. starts_other_stmt (class_at t) };

    fn test(&self, token: &Lexeme) -> bool {
        matches!(
            token.class,
            Class::OpenBrace
                | Class::Semicolon
                | Class::If
                | Class::While
                | Class::Do
                | Class::For
                | Class::Switch
                | Class::Break
                | Class::Continue
                | Class::Return
        )
    }
}

/// What a statement begins with behind its attributes ([stmt.stmt]).
pub struct StartsStmtKind;

impl Test<Lexeme> for StartsStmtKind {
    ghost use Rattle.cx_syntax.specs.Classes.{class_at};
    ghost use Rattle.cx_syntax_stmts.specs.Sets.{starts_stmt_kind};

    ghost holds = { λ _ t. starts_stmt_kind (class_at t) };

    fn test(&self, token: &Lexeme) -> bool {
        StartsOtherStmt.test(token) || StartsAssign.test(token)
    }
}

/// What specifiers begin with ([dcl.spec]).
pub struct StartsSpecs;

impl Test<Lexeme> for StartsSpecs {
    ghost use Rattle.cx_syntax.specs.Classes.{class_at};
    ghost use Rattle.cx_syntax.specs.Sets.{starts_specs};

    ghost holds = { λ _ t. starts_specs (class_at t) };

    #[tactic(auto, using(crate::proofs::Specs::begins_specs))]
    fn test(&self, token: &Lexeme) -> bool {
        AnyModifier.test(token) || StartsTyped.test(token)
    }
}

/// What stands in a block begins with ([stmt.dcl]).
pub struct StartsItem;

impl Test<Lexeme> for StartsItem {
    ghost use Rattle.cx_syntax.specs.Classes.{class_at};
    ghost use Rattle.cx_syntax_stmts.specs.Sets.{starts_item};

    ghost holds = { λ _ t. starts_item (class_at t) };

    fn test(&self, token: &Lexeme) -> bool {
        StartsStmtKind.test(token)
            || StartsSpecs.test(token)
            || Class::OpenBracket.test(token)
            || Class::StaticAssert.test(token)
            || Class::Using.test(token)
            || Class::Typedef.test(token)
    }
}

/// What stands in the braces of a `switch` begins with ([stmt.switch]).
pub struct StartsSwitchItem;

impl Test<Lexeme> for StartsSwitchItem {
    ghost use Rattle.cx_syntax.specs.Classes.{class_at};
    ghost use Rattle.cx_syntax_stmts.specs.Sets.{starts_switch_item};

    ghost holds = { λ _ t. starts_switch_item (class_at t) };

    fn test(&self, token: &Lexeme) -> bool {
        StartsLabel.test(token) || StartsItem.test(token)
    }
}
