//! Types, classes and enumerations as data, the definitions that contracts on them cite, and the laws of these.
#![tactic(auto)]

mod answer;
mod decl;
mod ids;
mod kind;
mod laws;
mod values;

pub use answer::TypeAnswer;
pub use cx_base::IntType;
pub use decl::{ClassBody, ClassDecl, ClassFlags, ClassKey, EnumDecl, EnumEnd, Extent, Field};
pub use ids::{ClassId, EnumId, FuncId, Step, TypeId, VarId};
pub use kind::{TypeKind, TypeRow};
pub use laws::{
    answers_stay, calls_make_grow, chains_are_short, const_set_aside, enumerators_in_range,
    field_is_smallest, growth_is_an_order, knowledge_stays, one_number_a_type, questions_open,
    values_of_the_type,
};
pub use values::{enum_values, type_values, underlying_of};
