//! What has ended in a finished object ([basic.life], [expr.const]).

ghost use Rattle.std.specs.Prelude.{◌≡◌, ◌↔◌, true, Some, Err, slice_get};
ghost use Rattle.cx_base.specs.declared.rule.Rule.TheVariants as rule;
ghost use Rattle.cx_type_defs.specs.Tables.{Tables};
ghost use Rattle.cx_state.specs.Objects.{Path, Tree, Object, Objects, at};
ghost use Rattle.cx_state.specs.Conditions.{is_dead};
ghost use Rattle.cx_state.specs.Steps.{is_ended, call_on};
ghost use Rattle.cx_state.specs.Finished.{IsFinished, IsOpen};

/// A class of which a member function can't be called, since it is out of its lifetime, is unborn or has ended; in a
/// finished object it has ended. So a call tells exactly the classes that have ended.
pub fn calls_tell_what_has_ended()
    ensures dead { (t : Tables) (os : Objects) (p : Path) (o : Object) (x : Tree) → slice_get os p.object ≡ Some o → at os p ≡ Some x → IsOpen o p.steps p.past → (call_on t os p ≡ Err rule.OutOfLifetime) ↔ (is_dead x ≡ true) }
    ensures ended { (t : Tables) (os : Objects) (p : Path) (o : Object) (x : Tree) → slice_get os p.object ≡ Some o → at os p ≡ Some x → IsOpen o p.steps p.past → IsFinished o.tree → (call_on t os p ≡ Err rule.OutOfLifetime) ↔ (is_ended x ≡ true) }
{}
