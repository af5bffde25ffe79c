//! Sets of tokens.

use cx_grammar::Test;
use cx_syntax::{Class, Lexeme};

/// TYPE.
pub struct Type;

impl Test<Lexeme> for Type {
    ghost use Rattle.cx_syntax.specs.Classes.{class_at};
    ghost use Rattle.cx_syntax.specs.Sets.{is_type};

    ghost holds = { λ _ t. is_type (class_at t) };

    fn test(&self, token: &Lexeme) -> bool {
        matches!(
            token.class,
            Class::TypeName | Class::FinalType | Class::OverrideType
        )
    }
}

/// ID.
pub struct Id;

impl Test<Lexeme> for Id {
    ghost use Rattle.cx_syntax.specs.Classes.{class_at};
    ghost use Rattle.cx_syntax.specs.Sets.{is_id};

    ghost holds = { λ _ t. is_id (class_at t) };

    fn test(&self, token: &Lexeme) -> bool {
        matches!(
            token.class,
            Class::Ident | Class::FinalIdent | Class::OverrideIdent
        )
    }
}

/// A name, TYPE or ID.
pub struct AnyName;

impl Test<Lexeme> for AnyName {
    ghost use Rattle.cx_syntax.specs.Classes.{class_at};
    ghost use Rattle.cx_syntax.specs.Sets.{is_name};

    ghost holds = { λ _ t. is_name (class_at t) };

    fn test(&self, token: &Lexeme) -> bool {
        matches!(
            token.class,
            Class::TypeName
                | Class::FinalType
                | Class::OverrideType
                | Class::Ident
                | Class::FinalIdent
                | Class::OverrideIdent
        )
    }
}

/// A word that names no type ([dcl.spec]).
pub struct AnyModifier;

impl Test<Lexeme> for AnyModifier {
    ghost use Rattle.cx_syntax.specs.Classes.{class_at};
    ghost use Rattle.cx_syntax.specs.Sets.{is_modifier};

    ghost holds = { λ _ t. is_modifier (class_at t) };

    fn test(&self, token: &Lexeme) -> bool {
        matches!(
            token.class,
            Class::Constexpr
                | Class::Consteval
                | Class::Constinit
                | Class::Inline
                | Class::Static
                | Class::Extern
                | Class::Virtual
                | Class::Explicit
                | Class::Const
        )
    }
}

/// A word of a type ([dcl.type.simple]).
pub struct AnyTypeWord;

impl Test<Lexeme> for AnyTypeWord {
    ghost use Rattle.cx_syntax.specs.Classes.{class_at};
    ghost use Rattle.cx_syntax.specs.Sets.{is_word};

    ghost holds = { λ _ t. is_word (class_at t) };

    fn test(&self, token: &Lexeme) -> bool {
        matches!(
            token.class,
            Class::Void
                | Class::Bool
                | Class::Char
                | Class::Short
                | Class::Int
                | Class::Long
                | Class::Signed
                | Class::Unsigned
                | Class::Auto
        )
    }
}

/// Either of both.
pub struct ModifierOrTypeWord;

impl Test<Lexeme> for ModifierOrTypeWord {
    ghost use Rattle.cx_syntax.specs.Classes.{class_at};
    ghost use Rattle.cx_syntax.specs.Sets.{is_modifier_or_word};

    ghost holds = { λ _ t. is_modifier_or_word (class_at t) };

    fn test(&self, token: &Lexeme) -> bool {
        matches!(
            token.class,
            Class::Constexpr
                | Class::Consteval
                | Class::Constinit
                | Class::Inline
                | Class::Static
                | Class::Extern
                | Class::Virtual
                | Class::Explicit
                | Class::Const
                | Class::Void
                | Class::Bool
                | Class::Char
                | Class::Short
                | Class::Int
                | Class::Long
                | Class::Signed
                | Class::Unsigned
                | Class::Auto
        )
    }
}

/// A word before a type's name ([dcl.type.elab]).
pub struct AnyElaboration;

impl Test<Lexeme> for AnyElaboration {
    ghost use Rattle.cx_syntax.specs.Classes.{class_at};
    ghost use Rattle.cx_syntax.specs.Sets.{is_elaboration};

    ghost holds = { λ _ t. is_elaboration (class_at t) };

    fn test(&self, token: &Lexeme) -> bool {
        matches!(
            token.class,
            Class::Struct | Class::Class | Class::Union | Class::Enum
        )
    }
}

/// An operator of one token that a function may be named by ([over.oper]).
pub struct SingleOperator;

impl Test<Lexeme> for SingleOperator {
    ghost use Rattle.cx_syntax.specs.Classes.{class_at};
    ghost use Rattle.cx_syntax.specs.Sets.{is_single_operator};

    ghost holds = { λ _ t. is_single_operator (class_at t) };

    fn test(&self, token: &Lexeme) -> bool {
        matches!(
            token.class,
            Class::Arrow
                | Class::Tilde
                | Class::Not
                | Class::PlusPlus
                | Class::MinusMinus
                | Class::Star
                | Class::Slash
                | Class::Percent
                | Class::Plus
                | Class::Minus
                | Class::ShiftLeft
                | Class::ShiftRight
                | Class::Less
                | Class::Greater
                | Class::LessEqual
                | Class::GreaterEqual
                | Class::EqualEqual
                | Class::NotEqual
                | Class::Amp
                | Class::Caret
                | Class::Pipe
                | Class::Equal
                | Class::PlusEqual
                | Class::MinusEqual
                | Class::StarEqual
                | Class::SlashEqual
                | Class::PercentEqual
                | Class::ShiftLeftEqual
                | Class::ShiftRightEqual
                | Class::AmpEqual
                | Class::CaretEqual
                | Class::PipeEqual
        )
    }
}

/// A number, a character or a word that is an expression ([expr.prim]).
pub struct Literal;

impl Test<Lexeme> for Literal {
    ghost use Rattle.cx_syntax.specs.Classes.{class_at};
    ghost use Rattle.cx_syntax.specs.Sets.{is_literal};

    ghost holds = { λ _ t. is_literal (class_at t) };

    fn test(&self, token: &Lexeme) -> bool {
        matches!(
            token.class,
            Class::Number
                | Class::Zero
                | Class::CharLiteral
                | Class::True
                | Class::False
                | Class::Nullptr
                | Class::This
        )
    }
}

/// STR.
pub struct AnyString;

impl Test<Lexeme> for AnyString {
    ghost use Rattle.cx_syntax.specs.Classes.{class_at};
    ghost use Rattle.cx_syntax.specs.Sets.{is_string};

    ghost holds = { λ _ t. is_string (class_at t) };

    fn test(&self, token: &Lexeme) -> bool {
        matches!(token.class, Class::StrLiteral)
    }
}

/// The word of a named cast.
pub struct AnyCastWord;

impl Test<Lexeme> for AnyCastWord {
    ghost use Rattle.cx_syntax.specs.Classes.{class_at};
    ghost use Rattle.cx_syntax.specs.Sets.{is_cast_word};

    ghost holds = { λ _ t. is_cast_word (class_at t) };

    fn test(&self, token: &Lexeme) -> bool {
        matches!(
            token.class,
            Class::StaticCast | Class::ConstCast | Class::ReinterpretCast
        )
    }
}

/// `++`, `--`.
pub struct Step;

impl Test<Lexeme> for Step {
    ghost use Rattle.cx_syntax.specs.Classes.{class_at};
    ghost use Rattle.cx_syntax.specs.Sets.{is_step};

    ghost holds = { λ _ t. is_step (class_at t) };

    fn test(&self, token: &Lexeme) -> bool {
        matches!(token.class, Class::PlusPlus | Class::MinusMinus)
    }
}

/// `.`, `->`.
pub struct AnyReach;

impl Test<Lexeme> for AnyReach {
    ghost use Rattle.cx_syntax.specs.Classes.{class_at};
    ghost use Rattle.cx_syntax.specs.Sets.{is_reach};

    ghost holds = { λ _ t. is_reach (class_at t) };

    fn test(&self, token: &Lexeme) -> bool {
        matches!(token.class, Class::Dot | Class::Arrow)
    }
}

/// An operator before its operand ([expr.unary.op]).
pub struct AnyPrefix;

impl Test<Lexeme> for AnyPrefix {
    ghost use Rattle.cx_syntax.specs.Classes.{class_at};
    ghost use Rattle.cx_syntax.specs.Sets.{is_prefix};

    ghost holds = { λ _ t. is_prefix (class_at t) };

    fn test(&self, token: &Lexeme) -> bool {
        matches!(
            token.class,
            Class::PlusPlus
                | Class::MinusMinus
                | Class::Star
                | Class::Amp
                | Class::Plus
                | Class::Minus
                | Class::Not
                | Class::Tilde
        )
    }
}

/// An assignment operator ([expr.ass]).
pub struct Assignment;

impl Test<Lexeme> for Assignment {
    ghost use Rattle.cx_syntax.specs.Classes.{class_at};
    ghost use Rattle.cx_syntax.specs.Sets.{is_assignment};

    ghost holds = { λ _ t. is_assignment (class_at t) };

    fn test(&self, token: &Lexeme) -> bool {
        matches!(
            token.class,
            Class::Equal
                | Class::PlusEqual
                | Class::MinusEqual
                | Class::StarEqual
                | Class::SlashEqual
                | Class::PercentEqual
                | Class::ShiftLeftEqual
                | Class::ShiftRightEqual
                | Class::AmpEqual
                | Class::CaretEqual
                | Class::PipeEqual
        )
    }
}

/// What the end of a function's name begins with.
pub struct StartsLast;

impl Test<Lexeme> for StartsLast {
    ghost use Rattle.cx_syntax.specs.Classes.{class_at};
    ghost use Rattle.cx_syntax.specs.Sets.{starts_last};

    ghost holds = { λ _ t. starts_last (class_at t) };

    fn test(&self, token: &Lexeme) -> bool {
        matches!(
            token.class,
            Class::Ident | Class::FinalIdent | Class::OverrideIdent | Class::Operator
        )
    }
}

/// What the type among specifiers begins with.
pub struct StartsTyped;

impl Test<Lexeme> for StartsTyped {
    ghost use Rattle.cx_syntax.specs.Classes.{class_at};
    ghost use Rattle.cx_syntax.specs.Sets.{starts_typed};

    ghost holds = { λ _ t. starts_typed (class_at t) };

    fn test(&self, token: &Lexeme) -> bool {
        matches!(
            token.class,
            Class::Void
                | Class::Bool
                | Class::Char
                | Class::Short
                | Class::Int
                | Class::Long
                | Class::Signed
                | Class::Unsigned
                | Class::Auto
                | Class::Struct
                | Class::Class
                | Class::Union
                | Class::Enum
                | Class::TypeName
                | Class::FinalType
                | Class::OverrideType
                | Class::Ident
                | Class::FinalIdent
                | Class::OverrideIdent
                | Class::ColonColon
        )
    }
}

/// `(`, `{`.
pub struct StartsGiven;

impl Test<Lexeme> for StartsGiven {
    ghost use Rattle.cx_syntax.specs.Classes.{class_at};
    ghost use Rattle.cx_syntax.specs.Sets.{starts_given};

    ghost holds = { λ _ t. starts_given (class_at t) };

    fn test(&self, token: &Lexeme) -> bool {
        matches!(token.class, Class::OpenParen | Class::OpenBrace)
    }
}

/// What stands behind a head.
pub struct StartsMore;

impl Test<Lexeme> for StartsMore {
    ghost use Rattle.cx_syntax.specs.Classes.{class_at};
    ghost use Rattle.cx_syntax.specs.Sets.{starts_more};

    ghost holds = { λ _ t. starts_more (class_at t) };

    fn test(&self, token: &Lexeme) -> bool {
        matches!(
            token.class,
            Class::OpenBracket
                | Class::OpenParen
                | Class::PlusPlus
                | Class::MinusMinus
                | Class::Dot
                | Class::Arrow
        )
    }
}

/// What an operand begins with.
pub struct StartsUnary;

impl Test<Lexeme> for StartsUnary {
    ghost use Rattle.cx_syntax.specs.Classes.{class_at};
    ghost use Rattle.cx_syntax.specs.Sets.{starts_unary};

    ghost holds = { λ _ t. starts_unary (class_at t) };

    fn test(&self, token: &Lexeme) -> bool {
        matches!(
            token.class,
            Class::Number
                | Class::Zero
                | Class::CharLiteral
                | Class::True
                | Class::False
                | Class::Nullptr
                | Class::This
                | Class::StrLiteral
                | Class::OpenParen
                | Class::TypeName
                | Class::FinalType
                | Class::OverrideType
                | Class::Ident
                | Class::FinalIdent
                | Class::OverrideIdent
                | Class::ColonColon
                | Class::Operator
                | Class::Void
                | Class::Bool
                | Class::Char
                | Class::Short
                | Class::Int
                | Class::Long
                | Class::Signed
                | Class::Unsigned
                | Class::Auto
                | Class::StaticCast
                | Class::ConstCast
                | Class::ReinterpretCast
                | Class::Sizeof
                | Class::Alignof
                | Class::PlusPlus
                | Class::MinusMinus
                | Class::Star
                | Class::Amp
                | Class::Plus
                | Class::Minus
                | Class::Not
                | Class::Tilde
                | Class::Delete
                | Class::New
        )
    }
}

/// What an expression begins with.
pub struct StartsAssign;

impl Test<Lexeme> for StartsAssign {
    ghost use Rattle.cx_syntax.specs.Classes.{class_at};
    ghost use Rattle.cx_syntax.specs.Sets.{starts_assign};

    ghost holds = { λ _ t. starts_assign (class_at t) };

    fn test(&self, token: &Lexeme) -> bool {
        matches!(
            token.class,
            Class::Number
                | Class::Zero
                | Class::CharLiteral
                | Class::True
                | Class::False
                | Class::Nullptr
                | Class::This
                | Class::StrLiteral
                | Class::OpenParen
                | Class::TypeName
                | Class::FinalType
                | Class::OverrideType
                | Class::Ident
                | Class::FinalIdent
                | Class::OverrideIdent
                | Class::ColonColon
                | Class::Operator
                | Class::Void
                | Class::Bool
                | Class::Char
                | Class::Short
                | Class::Int
                | Class::Long
                | Class::Signed
                | Class::Unsigned
                | Class::Auto
                | Class::StaticCast
                | Class::ConstCast
                | Class::ReinterpretCast
                | Class::Sizeof
                | Class::Alignof
                | Class::PlusPlus
                | Class::MinusMinus
                | Class::Star
                | Class::Amp
                | Class::Plus
                | Class::Minus
                | Class::Not
                | Class::Tilde
                | Class::Delete
                | Class::New
                | Class::Throw
        )
    }
}

/// What a clause of a list in braces begins with.
pub struct StartsClause;

impl Test<Lexeme> for StartsClause {
    ghost use Rattle.cx_syntax.specs.Classes.{class_at};
    ghost use Rattle.cx_syntax.specs.Sets.{starts_clause};

    ghost holds = { λ _ t. starts_clause (class_at t) };

    fn test(&self, token: &Lexeme) -> bool {
        matches!(
            token.class,
            Class::Number
                | Class::Zero
                | Class::CharLiteral
                | Class::True
                | Class::False
                | Class::Nullptr
                | Class::This
                | Class::StrLiteral
                | Class::OpenParen
                | Class::TypeName
                | Class::FinalType
                | Class::OverrideType
                | Class::Ident
                | Class::FinalIdent
                | Class::OverrideIdent
                | Class::ColonColon
                | Class::Operator
                | Class::Void
                | Class::Bool
                | Class::Char
                | Class::Short
                | Class::Int
                | Class::Long
                | Class::Signed
                | Class::Unsigned
                | Class::Auto
                | Class::StaticCast
                | Class::ConstCast
                | Class::ReinterpretCast
                | Class::Sizeof
                | Class::Alignof
                | Class::PlusPlus
                | Class::MinusMinus
                | Class::Star
                | Class::Amp
                | Class::Plus
                | Class::Minus
                | Class::Not
                | Class::Tilde
                | Class::Delete
                | Class::New
                | Class::Throw
                | Class::OpenBrace
        )
    }
}

/// What stands behind the operands of an assignment expression.
pub struct StartsTail;

impl Test<Lexeme> for StartsTail {
    ghost use Rattle.cx_syntax.specs.Classes.{class_at};
    ghost use Rattle.cx_syntax.specs.Sets.{starts_tail};

    ghost holds = { λ _ t. starts_tail (class_at t) };

    fn test(&self, token: &Lexeme) -> bool {
        matches!(
            token.class,
            Class::Equal
                | Class::PlusEqual
                | Class::MinusEqual
                | Class::StarEqual
                | Class::SlashEqual
                | Class::PercentEqual
                | Class::ShiftLeftEqual
                | Class::ShiftRightEqual
                | Class::AmpEqual
                | Class::CaretEqual
                | Class::PipeEqual
                | Class::Question
        )
    }
}

/// What only a type begins with.
pub struct BeginsType;

impl Test<Lexeme> for BeginsType {
    ghost use Rattle.cx_syntax.specs.Classes.{class_at};
    ghost use Rattle.cx_syntax.specs.Sets.{begins_type};

    ghost holds = { λ _ t. begins_type (class_at t) };

    fn test(&self, token: &Lexeme) -> bool {
        matches!(
            token.class,
            Class::Constexpr
                | Class::Consteval
                | Class::Constinit
                | Class::Inline
                | Class::Static
                | Class::Extern
                | Class::Virtual
                | Class::Explicit
                | Class::Const
                | Class::Struct
                | Class::Class
                | Class::Union
                | Class::Enum
        )
    }
}

/// What goes on with a name.
pub struct FollowsName;

impl Test<Lexeme> for FollowsName {
    ghost use Rattle.cx_syntax.specs.Classes.{class_at};
    ghost use Rattle.cx_syntax.specs.Sets.{follows_name};

    ghost holds = { λ _ t. follows_name (class_at t) };

    fn test(&self, token: &Lexeme) -> bool {
        matches!(
            token.class,
            Class::OpenBracket
                | Class::OpenParen
                | Class::PlusPlus
                | Class::MinusMinus
                | Class::Dot
                | Class::Arrow
                | Class::Star
                | Class::Slash
                | Class::Percent
                | Class::Plus
                | Class::Minus
                | Class::ShiftLeft
                | Class::ShiftRight
                | Class::Less
                | Class::Greater
                | Class::LessEqual
                | Class::GreaterEqual
                | Class::EqualEqual
                | Class::NotEqual
                | Class::Amp
                | Class::Caret
                | Class::Pipe
                | Class::AmpAmp
                | Class::PipePipe
                | Class::Equal
                | Class::PlusEqual
                | Class::MinusEqual
                | Class::StarEqual
                | Class::SlashEqual
                | Class::PercentEqual
                | Class::ShiftLeftEqual
                | Class::ShiftRightEqual
                | Class::AmpEqual
                | Class::CaretEqual
                | Class::PipeEqual
                | Class::Question
                | Class::Comma
                | Class::CloseParen
        )
    }
}

/// `operator`.
pub struct OperatorWord;

impl Test<Lexeme> for OperatorWord {
    ghost use Rattle.cx_syntax.specs.Classes.{class_at};
    ghost use Rattle.cx_syntax.specs.Sets.{is_operator_word};

    ghost holds = { λ _ t. is_operator_word (class_at t) };

    fn test(&self, token: &Lexeme) -> bool {
        matches!(token.class, Class::Operator)
    }
}
