//! What single tokens give.

ghost use Rattle.std.specs.Prelude.{◌≡◌};
ghost use Rattle.cx_syntax.specs.Values.{binary_by, modifier_by, overloaded_by, number_of, character_of};

use crate::sets::{AnyModifier, SingleOperator};
use cx_base::IntType;
use cx_grammar::{Pick, Test};
use cx_ints::Literal;
use cx_syntax::{Class, Lexeme};
use cx_token_defs::TokenKind;
use cx_tree::{
    AssignOp, BinaryOp, CastWord, ClassKey, Elaboration, ExprKind, Modifier, ModifierWord,
    MoreKind, Overloaded, PrefixOp, Reach, SimpleType, TypeWord, WordOrModifier,
};

/// The word of a type, where it stands ([dcl.type.simple]).
pub struct TypeWordIn;

impl Pick<Lexeme> for TypeWordIn {
    type Value = SimpleType;

    ghost use Rattle.cx_syntax.specs.Sets.{is_word};
    ghost use Rattle.cx_syntax.specs.Values.{pick, word_of};

    ghost picks = { λ _ t. pick is_word word_of t };

    fn pick(&self, token: &Lexeme) -> Option<SimpleType> {
        let word = match token.class {
            Class::Void => TypeWord::Void,
            Class::Bool => TypeWord::Bool,
            Class::Char => TypeWord::Char,
            Class::Short => TypeWord::Short,
            Class::Int => TypeWord::Int,
            Class::Long => TypeWord::Long,
            Class::Signed => TypeWord::Signed,
            Class::Unsigned => TypeWord::Unsigned,
            Class::Auto => TypeWord::Auto,
            _ => return None,
        };
        Some(SimpleType {
            word,
            span: token.span,
        })
    }
}

/// The word before a type's name ([dcl.type.elab]).
pub struct ElaborationIn;

impl Pick<Lexeme> for ElaborationIn {
    type Value = Elaboration;

    ghost use Rattle.cx_syntax.specs.Sets.{is_elaboration};
    ghost use Rattle.cx_syntax.specs.Values.{pick, elaboration_of};

    ghost picks = { λ _ t. pick is_elaboration elaboration_of t };

    fn pick(&self, token: &Lexeme) -> Option<Elaboration> {
        Some(match token.class {
            Class::Struct => Elaboration::Class(ClassKey::Struct),
            Class::Class => Elaboration::Class(ClassKey::Class),
            Class::Union => Elaboration::Class(ClassKey::Union),
            Class::Enum => Elaboration::Enum,
            _ => return None,
        })
    }
}

/// An assignment operator ([expr.ass]).
pub struct AssignOpIn;

impl Pick<Lexeme> for AssignOpIn {
    type Value = AssignOp;

    ghost use Rattle.cx_syntax.specs.Sets.{is_assignment};
    ghost use Rattle.cx_syntax.specs.Values.{pick, assignment_of};

    ghost picks = { λ _ t. pick is_assignment assignment_of t };

    fn pick(&self, token: &Lexeme) -> Option<AssignOp> {
        Some(match token.class {
            Class::Equal => AssignOp::Plain,
            Class::PlusEqual => AssignOp::Add,
            Class::MinusEqual => AssignOp::Subtract,
            Class::StarEqual => AssignOp::Multiply,
            Class::SlashEqual => AssignOp::Divide,
            Class::PercentEqual => AssignOp::Remainder,
            Class::ShiftLeftEqual => AssignOp::ShiftLeft,
            Class::ShiftRightEqual => AssignOp::ShiftRight,
            Class::AmpEqual => AssignOp::BitAnd,
            Class::CaretEqual => AssignOp::BitXor,
            Class::PipeEqual => AssignOp::BitOr,
            _ => return None,
        })
    }
}

/// An operator before its operand ([expr.unary.op]).
pub struct PrefixOpIn;

impl Pick<Lexeme> for PrefixOpIn {
    type Value = PrefixOp;

    ghost use Rattle.cx_syntax.specs.Sets.{is_prefix};
    ghost use Rattle.cx_syntax.specs.Values.{pick, prefix_of};

    ghost picks = { λ _ t. pick is_prefix prefix_of t };

    fn pick(&self, token: &Lexeme) -> Option<PrefixOp> {
        Some(match token.class {
            Class::PlusPlus => PrefixOp::Increment,
            Class::MinusMinus => PrefixOp::Decrement,
            Class::Star => PrefixOp::Indirection,
            Class::Amp => PrefixOp::Address,
            Class::Plus => PrefixOp::Plus,
            Class::Minus => PrefixOp::Minus,
            Class::Not => PrefixOp::Not,
            Class::Tilde => PrefixOp::Complement,
            _ => return None,
        })
    }
}

/// `++`, `--` behind an operand ([expr.post.incr]).
pub struct StepIn;

impl Pick<Lexeme> for StepIn {
    type Value = MoreKind;

    ghost use Rattle.cx_syntax.specs.Sets.{is_step};
    ghost use Rattle.cx_syntax.specs.Values.{pick, step_of};

    ghost picks = { λ _ t. pick is_step step_of t };

    fn pick(&self, token: &Lexeme) -> Option<MoreKind> {
        Some(match token.class {
            Class::PlusPlus => MoreKind::Increment,
            Class::MinusMinus => MoreKind::Decrement,
            _ => return None,
        })
    }
}

/// `.`, `->` ([expr.ref]).
pub struct ReachIn;

impl Pick<Lexeme> for ReachIn {
    type Value = Reach;

    ghost use Rattle.cx_syntax.specs.Sets.{is_reach};
    ghost use Rattle.cx_syntax.specs.Values.{pick, reach_of};

    ghost picks = { λ _ t. pick is_reach reach_of t };

    fn pick(&self, token: &Lexeme) -> Option<Reach> {
        Some(match token.class {
            Class::Dot => Reach::Dot,
            Class::Arrow => Reach::Arrow,
            _ => return None,
        })
    }
}

/// The word of a named cast.
pub struct CastWordIn;

impl Pick<Lexeme> for CastWordIn {
    type Value = CastWord;

    ghost use Rattle.cx_syntax.specs.Sets.{is_cast_word};
    ghost use Rattle.cx_syntax.specs.Values.{pick, cast_word_of};

    ghost picks = { λ _ t. pick is_cast_word cast_word_of t };

    fn pick(&self, token: &Lexeme) -> Option<CastWord> {
        Some(match token.class {
            Class::StaticCast => CastWord::Static,
            Class::ConstCast => CastWord::Const,
            Class::ReinterpretCast => CastWord::Reinterpret,
            _ => return None,
        })
    }
}

fn modifier_word(class: Class) -> ModifierWord
    ensures { result ≡ modifier_by class }
{
    match class {
        Class::Consteval => ModifierWord::Consteval,
        Class::Constinit => ModifierWord::Constinit,
        Class::Inline => ModifierWord::Inline,
        Class::Static => ModifierWord::Static,
        Class::Extern => ModifierWord::Extern,
        Class::Virtual => ModifierWord::Virtual,
        Class::Explicit => ModifierWord::Explicit,
        Class::Const => ModifierWord::Const,
        _ => ModifierWord::Constexpr,
    }
}

/// A word that names no type ([dcl.spec]).
pub struct ModifierIn;

impl Pick<Lexeme> for ModifierIn {
    type Value = Modifier;

    ghost use Rattle.cx_syntax.specs.Sets.{is_modifier};
    ghost use Rattle.cx_syntax.specs.Values.{pick, modifier_of};

    ghost picks = { λ _ t. pick is_modifier modifier_of t };

    fn pick(&self, token: &Lexeme) -> Option<Modifier> {
        if !AnyModifier.test(token) {
            return None;
        }
        Some(Modifier {
            word: modifier_word(token.class),
            span: token.span,
        })
    }
}

fn modifier(word: ModifierWord, token: &Lexeme) -> WordOrModifier
    ensures { result ≡ WordOrModifier.Modifier (record { word = word; span = token.now.span }) }
{
    WordOrModifier::Modifier(Modifier {
        word,
        span: token.span,
    })
}

/// A word behind the first word of a type ([dcl.spec], [dcl.type.simple]).
pub struct WordOrModifierIn;

impl Pick<Lexeme> for WordOrModifierIn {
    type Value = WordOrModifier;

    ghost use Rattle.cx_syntax.specs.Sets.{is_modifier_or_word};
    ghost use Rattle.cx_syntax.specs.Values.{pick, either_of};

    ghost picks = { λ _ t. pick is_modifier_or_word either_of t };

    fn pick(&self, token: &Lexeme) -> Option<WordOrModifier> {
        Some(match token.class {
            Class::Void => WordOrModifier::Word(TypeWord::Void),
            Class::Bool => WordOrModifier::Word(TypeWord::Bool),
            Class::Char => WordOrModifier::Word(TypeWord::Char),
            Class::Short => WordOrModifier::Word(TypeWord::Short),
            Class::Int => WordOrModifier::Word(TypeWord::Int),
            Class::Long => WordOrModifier::Word(TypeWord::Long),
            Class::Signed => WordOrModifier::Word(TypeWord::Signed),
            Class::Unsigned => WordOrModifier::Word(TypeWord::Unsigned),
            Class::Auto => WordOrModifier::Word(TypeWord::Auto),
            Class::Constexpr => modifier(ModifierWord::Constexpr, token),
            Class::Consteval => modifier(ModifierWord::Consteval, token),
            Class::Constinit => modifier(ModifierWord::Constinit, token),
            Class::Inline => modifier(ModifierWord::Inline, token),
            Class::Static => modifier(ModifierWord::Static, token),
            Class::Extern => modifier(ModifierWord::Extern, token),
            Class::Virtual => modifier(ModifierWord::Virtual, token),
            Class::Explicit => modifier(ModifierWord::Explicit, token),
            Class::Const => modifier(ModifierWord::Const, token),
            _ => return None,
        })
    }
}

fn binary_op(class: Class) -> BinaryOp
    ensures { result ≡ binary_by class }
{
    match class {
        Class::PipePipe => BinaryOp::LogicalOr,
        Class::AmpAmp => BinaryOp::LogicalAnd,
        Class::Pipe => BinaryOp::BitOr,
        Class::Caret => BinaryOp::BitXor,
        Class::Amp => BinaryOp::BitAnd,
        Class::EqualEqual => BinaryOp::Equal,
        Class::NotEqual => BinaryOp::NotEqual,
        Class::Less => BinaryOp::Less,
        Class::Greater => BinaryOp::Greater,
        Class::LessEqual => BinaryOp::LessEqual,
        Class::GreaterEqual => BinaryOp::GreaterEqual,
        Class::ShiftLeft => BinaryOp::ShiftLeft,
        Class::ShiftRight => BinaryOp::ShiftRight,
        Class::Plus => BinaryOp::Add,
        Class::Minus => BinaryOp::Subtract,
        Class::Slash => BinaryOp::Divide,
        Class::Percent => BinaryOp::Remainder,
        _ => BinaryOp::Multiply,
    }
}

fn overloaded(class: Class) -> Overloaded
    ensures { result ≡ overloaded_by class }
{
    match class {
        Class::Arrow => Overloaded::Arrow,
        Class::Tilde => Overloaded::Complement,
        Class::Not => Overloaded::Not,
        Class::PlusPlus => Overloaded::Increment,
        Class::MinusMinus => Overloaded::Decrement,
        Class::Equal => Overloaded::Assign(AssignOp::Plain),
        Class::PlusEqual => Overloaded::Assign(AssignOp::Add),
        Class::MinusEqual => Overloaded::Assign(AssignOp::Subtract),
        Class::StarEqual => Overloaded::Assign(AssignOp::Multiply),
        Class::SlashEqual => Overloaded::Assign(AssignOp::Divide),
        Class::PercentEqual => Overloaded::Assign(AssignOp::Remainder),
        Class::ShiftLeftEqual => Overloaded::Assign(AssignOp::ShiftLeft),
        Class::ShiftRightEqual => Overloaded::Assign(AssignOp::ShiftRight),
        Class::AmpEqual => Overloaded::Assign(AssignOp::BitAnd),
        Class::CaretEqual => Overloaded::Assign(AssignOp::BitXor),
        Class::PipeEqual => Overloaded::Assign(AssignOp::BitOr),
        other => Overloaded::Binary(binary_op(other)),
    }
}

/// An operator of one token that a function may be named by ([over.oper]).
pub struct OverloadedIn;

impl Pick<Lexeme> for OverloadedIn {
    type Value = Overloaded;

    ghost use Rattle.cx_syntax.specs.Sets.{is_single_operator};
    ghost use Rattle.cx_syntax.specs.Values.{pick, overloaded_of};

    ghost picks = { λ _ t. pick is_single_operator overloaded_of t };

    fn pick(&self, token: &Lexeme) -> Option<Overloaded> {
        if !SingleOperator.test(token) {
            return None;
        }
        Some(overloaded(token.class))
    }
}

/// A number, a character or a word that is an expression ([expr.prim]).
pub struct LiteralIn;

impl Pick<Lexeme> for LiteralIn {
    type Value = ExprKind;

    ghost use Rattle.cx_syntax.specs.Sets.{is_literal};
    ghost use Rattle.cx_syntax.specs.Values.{pick, literal_of};

    ghost picks = { λ _ t. pick is_literal literal_of t };

    fn pick(&self, token: &Lexeme) -> Option<ExprKind> {
        Some(match token.class {
            Class::CharLiteral => ExprKind::Char(character(&token.kind)),
            Class::True => ExprKind::True,
            Class::False => ExprKind::False,
            Class::Nullptr => ExprKind::Nullptr,
            Class::This => ExprKind::This,
            Class::Number | Class::Zero => ExprKind::Number(number(&token.kind)),
            _ => return None,
        })
    }
}

fn number(kind: &TokenKind) -> Literal
    ensures { result ≡ number_of kind.now }
{
    match *kind {
        TokenKind::Number(value) => value,
        _ => Literal::new(IntType::Int, 0),
    }
}

fn character(kind: &TokenKind) -> i8
    ensures { result ≡ character_of kind.now }
{
    match *kind {
        TokenKind::Char(value) => value,
        _ => 0,
    }
}
