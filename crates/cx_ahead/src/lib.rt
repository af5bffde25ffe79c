//! What single tokens are and give in the grammar, and what the tokens ahead tell.
#![tactic(auto)]

mod ahead;
mod faults;
mod operators;
mod sets;
mod values;

pub use ahead::{behind, qtype_ahead, qtype_end, sees, type_ahead};
pub use faults::{operand_fault, type_fault};
pub use operators::Allowed;
pub use sets::{
    AnyCastWord, AnyElaboration, AnyModifier, AnyName, AnyPrefix, AnyReach, AnyString, AnyTypeWord,
    Assignment, BeginsType, FollowsName, Id, Literal, ModifierOrTypeWord, OperatorWord,
    SingleOperator, StartsAssign, StartsClause, StartsGiven, StartsLast, StartsMore, StartsTail,
    StartsTyped, StartsUnary, Step, Type,
};
pub use values::{
    AssignOpIn, CastWordIn, ElaborationIn, LiteralIn, ModifierIn, OverloadedIn, PrefixOpIn,
    ReachIn, StepIn, TypeWordIn, WordOrModifierIn,
};
