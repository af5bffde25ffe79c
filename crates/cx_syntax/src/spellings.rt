//! The classes of words and operators.

ghost use Rattle.std.specs.Prelude.{◌≡◌};
ghost use Rattle.cx_syntax.specs.Classes.{arrows_and_assignments, brackets_and_marks, class_in, comparisons_and_shifts, operator_class, single_operators, word_class, words_a_to_c, words_d_to_i, words_in_s, words_l_to_r, words_t_to_w};

use crate::class::Class;

#[tactic(auto, unfolding(crate::specs::Classes::words_a_to_c))]
fn words_a_to_c(text: &[u8]) -> Option<Class>
    ensures { result ≡ class_in words_a_to_c text.now }
{
    if text == b"alignof".as_slice() {
        Some(Class::Alignof)
    } else if text == b"auto".as_slice() {
        Some(Class::Auto)
    } else if text == b"bool".as_slice() {
        Some(Class::Bool)
    } else if text == b"break".as_slice() {
        Some(Class::Break)
    } else if text == b"case".as_slice() {
        Some(Class::Case)
    } else if text == b"char".as_slice() {
        Some(Class::Char)
    } else if text == b"class".as_slice() {
        Some(Class::Class)
    } else if text == b"const".as_slice() {
        Some(Class::Const)
    } else if text == b"consteval".as_slice() {
        Some(Class::Consteval)
    } else if text == b"constexpr".as_slice() {
        Some(Class::Constexpr)
    } else if text == b"constinit".as_slice() {
        Some(Class::Constinit)
    } else if text == b"const_cast".as_slice() {
        Some(Class::ConstCast)
    } else if text == b"continue".as_slice() {
        Some(Class::Continue)
    } else {
        None
    }
}

#[tactic(auto, unfolding(crate::specs::Classes::words_d_to_i))]
fn words_d_to_i(text: &[u8]) -> Option<Class>
    ensures { result ≡ class_in words_d_to_i text.now }
{
    if text == b"default".as_slice() {
        Some(Class::Default)
    } else if text == b"delete".as_slice() {
        Some(Class::Delete)
    } else if text == b"do".as_slice() {
        Some(Class::Do)
    } else if text == b"else".as_slice() {
        Some(Class::Else)
    } else if text == b"enum".as_slice() {
        Some(Class::Enum)
    } else if text == b"explicit".as_slice() {
        Some(Class::Explicit)
    } else if text == b"extern".as_slice() {
        Some(Class::Extern)
    } else if text == b"false".as_slice() {
        Some(Class::False)
    } else if text == b"for".as_slice() {
        Some(Class::For)
    } else if text == b"if".as_slice() {
        Some(Class::If)
    } else if text == b"inline".as_slice() {
        Some(Class::Inline)
    } else if text == b"int".as_slice() {
        Some(Class::Int)
    } else {
        None
    }
}

#[tactic(auto, unfolding(crate::specs::Classes::words_l_to_r))]
fn words_l_to_r(text: &[u8]) -> Option<Class>
    ensures { result ≡ class_in words_l_to_r text.now }
{
    if text == b"long".as_slice() {
        Some(Class::Long)
    } else if text == b"namespace".as_slice() {
        Some(Class::Namespace)
    } else if text == b"new".as_slice() {
        Some(Class::New)
    } else if text == b"noexcept".as_slice() {
        Some(Class::Noexcept)
    } else if text == b"nullptr".as_slice() {
        Some(Class::Nullptr)
    } else if text == b"operator".as_slice() {
        Some(Class::Operator)
    } else if text == b"private".as_slice() {
        Some(Class::Private)
    } else if text == b"protected".as_slice() {
        Some(Class::Protected)
    } else if text == b"public".as_slice() {
        Some(Class::Public)
    } else if text == b"reinterpret_cast".as_slice() {
        Some(Class::ReinterpretCast)
    } else if text == b"return".as_slice() {
        Some(Class::Return)
    } else {
        None
    }
}

#[tactic(auto, unfolding(crate::specs::Classes::words_in_s))]
fn words_in_s(text: &[u8]) -> Option<Class>
    ensures { result ≡ class_in words_in_s text.now }
{
    if text == b"short".as_slice() {
        Some(Class::Short)
    } else if text == b"signed".as_slice() {
        Some(Class::Signed)
    } else if text == b"sizeof".as_slice() {
        Some(Class::Sizeof)
    } else if text == b"static".as_slice() {
        Some(Class::Static)
    } else if text == b"static_assert".as_slice() {
        Some(Class::StaticAssert)
    } else if text == b"static_cast".as_slice() {
        Some(Class::StaticCast)
    } else if text == b"struct".as_slice() {
        Some(Class::Struct)
    } else if text == b"switch".as_slice() {
        Some(Class::Switch)
    } else {
        None
    }
}

#[tactic(auto, unfolding(crate::specs::Classes::words_t_to_w))]
fn words_t_to_w(text: &[u8]) -> Option<Class>
    ensures { result ≡ class_in words_t_to_w text.now }
{
    if text == b"this".as_slice() {
        Some(Class::This)
    } else if text == b"throw".as_slice() {
        Some(Class::Throw)
    } else if text == b"true".as_slice() {
        Some(Class::True)
    } else if text == b"typedef".as_slice() {
        Some(Class::Typedef)
    } else if text == b"union".as_slice() {
        Some(Class::Union)
    } else if text == b"unsigned".as_slice() {
        Some(Class::Unsigned)
    } else if text == b"using".as_slice() {
        Some(Class::Using)
    } else if text == b"virtual".as_slice() {
        Some(Class::Virtual)
    } else if text == b"void".as_slice() {
        Some(Class::Void)
    } else if text == b"while".as_slice() {
        Some(Class::While)
    } else {
        None
    }
}

#[tactic(auto, unfolding(crate::specs::Classes::brackets_and_marks))]
fn brackets_and_marks(text: &[u8]) -> Option<Class>
    ensures { result ≡ class_in brackets_and_marks text.now }
{
    if text == b"{".as_slice() {
        Some(Class::OpenBrace)
    } else if text == b"}".as_slice() {
        Some(Class::CloseBrace)
    } else if text == b"[".as_slice() {
        Some(Class::OpenBracket)
    } else if text == b"]".as_slice() {
        Some(Class::CloseBracket)
    } else if text == b"(".as_slice() {
        Some(Class::OpenParen)
    } else if text == b")".as_slice() {
        Some(Class::CloseParen)
    } else if text == b";".as_slice() {
        Some(Class::Semicolon)
    } else if text == b":".as_slice() {
        Some(Class::Colon)
    } else if text == b",".as_slice() {
        Some(Class::Comma)
    } else if text == b".".as_slice() {
        Some(Class::Dot)
    } else if text == b"?".as_slice() {
        Some(Class::Question)
    } else if text == b"~".as_slice() {
        Some(Class::Tilde)
    } else {
        None
    }
}

#[tactic(auto, unfolding(crate::specs::Classes::single_operators))]
fn single_operators(text: &[u8]) -> Option<Class>
    ensures { result ≡ class_in single_operators text.now }
{
    if text == b"!".as_slice() {
        Some(Class::Not)
    } else if text == b"+".as_slice() {
        Some(Class::Plus)
    } else if text == b"-".as_slice() {
        Some(Class::Minus)
    } else if text == b"*".as_slice() {
        Some(Class::Star)
    } else if text == b"/".as_slice() {
        Some(Class::Slash)
    } else if text == b"%".as_slice() {
        Some(Class::Percent)
    } else if text == b"^".as_slice() {
        Some(Class::Caret)
    } else if text == b"&".as_slice() {
        Some(Class::Amp)
    } else if text == b"|".as_slice() {
        Some(Class::Pipe)
    } else if text == b"=".as_slice() {
        Some(Class::Equal)
    } else if text == b"<".as_slice() {
        Some(Class::Less)
    } else if text == b">".as_slice() {
        Some(Class::Greater)
    } else {
        None
    }
}

#[tactic(auto, unfolding(crate::specs::Classes::arrows_and_assignments))]
fn arrows_and_assignments(text: &[u8]) -> Option<Class>
    ensures { result ≡ class_in arrows_and_assignments text.now }
{
    if text == b"::".as_slice() {
        Some(Class::ColonColon)
    } else if text == b"->".as_slice() {
        Some(Class::Arrow)
    } else if text == b"+=".as_slice() {
        Some(Class::PlusEqual)
    } else if text == b"-=".as_slice() {
        Some(Class::MinusEqual)
    } else if text == b"*=".as_slice() {
        Some(Class::StarEqual)
    } else if text == b"/=".as_slice() {
        Some(Class::SlashEqual)
    } else if text == b"%=".as_slice() {
        Some(Class::PercentEqual)
    } else if text == b"^=".as_slice() {
        Some(Class::CaretEqual)
    } else if text == b"&=".as_slice() {
        Some(Class::AmpEqual)
    } else if text == b"|=".as_slice() {
        Some(Class::PipeEqual)
    } else if text == b"<<=".as_slice() {
        Some(Class::ShiftLeftEqual)
    } else if text == b">>=".as_slice() {
        Some(Class::ShiftRightEqual)
    } else {
        None
    }
}

#[tactic(auto, unfolding(crate::specs::Classes::comparisons_and_shifts))]
fn comparisons_and_shifts(text: &[u8]) -> Option<Class>
    ensures { result ≡ class_in comparisons_and_shifts text.now }
{
    if text == b"==".as_slice() {
        Some(Class::EqualEqual)
    } else if text == b"!=".as_slice() {
        Some(Class::NotEqual)
    } else if text == b"<=".as_slice() {
        Some(Class::LessEqual)
    } else if text == b">=".as_slice() {
        Some(Class::GreaterEqual)
    } else if text == b"&&".as_slice() {
        Some(Class::AmpAmp)
    } else if text == b"||".as_slice() {
        Some(Class::PipePipe)
    } else if text == b"<<".as_slice() {
        Some(Class::ShiftLeft)
    } else if text == b">>".as_slice() {
        Some(Class::ShiftRight)
    } else if text == b"++".as_slice() {
        Some(Class::PlusPlus)
    } else if text == b"--".as_slice() {
        Some(Class::MinusMinus)
    } else {
        None
    }
}

/// The class of a word.
pub fn word_class(text: &[u8]) -> Class
    ensures { result ≡ word_class text.now }
{
    if let Some(class) = words_a_to_c(text) {
        return class;
    }
    if let Some(class) = words_d_to_i(text) {
        return class;
    }
    if let Some(class) = words_l_to_r(text) {
        return class;
    }
    if let Some(class) = words_in_s(text) {
        return class;
    }
    if let Some(class) = words_t_to_w(text) {
        return class;
    }
    Class::Unknown
}

/// The class of an operator or punctuator.
pub fn operator_class(text: &[u8]) -> Class
    ensures { result ≡ operator_class text.now }
{
    if let Some(class) = brackets_and_marks(text) {
        return class;
    }
    if let Some(class) = single_operators(text) {
        return class;
    }
    if let Some(class) = arrows_and_assignments(text) {
        return class;
    }
    if let Some(class) = comparisons_and_shifts(text) {
        return class;
    }
    Class::Unknown
}
