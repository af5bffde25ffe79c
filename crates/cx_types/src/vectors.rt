ghost use Rattle.std.specs.Prelude.{◌≡◌, ◌<◌, [], ◌∷◌, ◌++◌, length, OnOk, OnErr};
ghost use Rattle.cx_type_defs.specs.Tables.{changed_at};

use cx_base::Memory;
use cx_type_defs::{ClassBody, ClassDecl, EnumDecl, EnumEnd};

/// A refused push changes nothing.
pub fn push<T: Drop>(items: &mut Vec<T>, item: T) -> Result<(), Memory>
    ensures ok { OnOk result (items.new.items ≡ items.old.items ++ item ∷ []) }
    ensures err { OnErr result (items.new.items ≡ items.old.items) }
{
    match items.push(item) {
        Ok(()) => Ok(()),
        Err(_) => Err(Memory),
    }
}

/// The list of an enumeration ends.
pub fn end_at(enums: &mut Vec<EnumDecl>, i: usize, end: EnumEnd)
    requires { i < length enums.old.items }
    ensures { enums.new.items ≡ changed_at (λ d. record d { end = Some end }) enums.old.items i }
{
    let decl = &mut enums[i];
    decl.end = Some(end);
}

/// A class gets its body.
pub fn complete_at(classes: &mut Vec<ClassDecl>, i: usize, body: ClassBody)
    requires { i < length classes.old.items }
    ensures { classes.new.items ≡ changed_at (λ d. record d { body = Some body }) classes.old.items i }
{
    let decl = &mut classes[i];
    decl.body = Some(body);
}
