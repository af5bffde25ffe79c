use cx_base::Mark;
use cx_type_defs::VarId;

/// What a name in an evaluation stands for: a variable, the static temporary that a reference is bound to, or a string
/// literal, the last two by where they stand in the text ([basic.life], [class.temporary], [lex.string]).
#[derive(Clone, Copy, Debug, PartialEq, Eq)]
pub enum Root {
    Variable(VarId),
    Temporary(Mark),
    Literal(Mark),
}

/// For what a constant is judged ([expr.const], [dcl.constexpr]).
#[derive(Clone, Copy, Debug, PartialEq, Eq)]
pub enum JudgeMode {
    /// Its value is asked for.
    Constant,
    /// The variable that it initializes is kept.
    Keep,
    /// Whether it narrows is asked; `is_constant_evaluated()` is false there.
    Narrow,
}
