//! The names of types, as the grammar asks for them.

use cx_base::Text;
use cx_syntax::TypeNames;
use cx_type_names::NameSet;

/// The set of the names of types of a unit.
#[derive(Drop)]
pub struct UnitNames<'a> {
    pub set: &'a NameSet,
}

impl<'a> TypeNames for UnitNames<'a> {
    ghost use Rattle.std.specs.FinSet.{contains};

    ghost holds = { λ names text. contains names.set.now text };

    fn names_type(&self, text: &Text) -> bool {
        self.set.has(text)
    }
}
