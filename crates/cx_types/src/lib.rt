//! The tables of types, classes and enumerations, and what is asked of them.
#![tactic(auto)]

mod facts;
mod func_set;
mod measured;
mod row_set;
mod sums;
mod tables;
mod vectors;

pub use cx_type_defs::{
    ClassBody, ClassDecl, ClassFlags, ClassId, ClassKey, EnumDecl, EnumEnd, EnumId, Extent, Field,
    FuncId, IntType, Step, TypeAnswer, TypeId, TypeKind, TypeRow, VarId, answers_stay,
    calls_make_grow, chains_are_short, const_set_aside, enumerators_in_range, field_is_smallest,
    growth_is_an_order, knowledge_stays, one_number_a_type, questions_open, underlying_of,
    values_of_the_type,
};
pub use tables::Types;
