//! The lookup of names, unqualified and qualified.
ghost use Rattle.std.specs.Prelude.{◌≡◌, Option, Some, None};
ghost use Rattle.std.specs.Option.{option_copied};
ghost use Rattle.cx_scopes.specs.Lookup.{Answers, answer_of, find_answer, find_as_answer, find_in_answer, find_in_as_answer, members, said_by, said_from, said_in, together};
ghost use Rattle.cx_scopes.specs.Names.{counted, looks_into, qualify};

use crate::entered::{Entered, GLOBAL};
use crate::kinds::{Entity, Found, LookAnswer, ScopeId, Sought};
use crate::scopes::Scopes;
use cx_base::{List, Text};
use cx_type_defs::ClassId;
use cx_types::Types;
use std::alloc::Global;

/// What two bases say together, where both say something the same list; None where they say different ones.
fn agreed<'a>(sum: &'a [Entity], other: &'a [Entity]) -> Option<&'a [Entity]>
    ensures { option_copied result ≡ together (Some sum.now) (Some other.now) }
{
    if sum.is_empty() {
        return Some(other);
    }
    if other.is_empty() || sum == other {
        return Some(sum);
    }
    None
}

/// The answer to a lookup, by what the scopes said.
pub fn answered(alloc: Global, said: Option<&[Entity]>) -> Result<Found, LookAnswer>
    ensures { Answers (answer_of (option_copied said.entry)) result }
{
    let Some(found) = said else {
        return Err(LookAnswer::Ambiguous);
    };
    if found.is_empty() {
        return Err(LookAnswer::Unknown);
    }
    match Vec::from_slice(alloc, found) {
        Ok(items) => Ok(List::from_vec(items)),
        Err(_) => Err(LookAnswer::Memory),
    }
}

/// Whether the meanings are a namespace or a type.
fn qualify(meanings: &[Entity]) -> bool
    ensures { result ≡ qualify meanings.now }
{
    match meanings.first().copied() {
        Some(Entity::Named(_)) => true,
        Some(Entity::Space(_)) => true,
        _ => false,
    }
}

/// What a lookup counts of a name's meanings in one scope.
fn counted<'a>(sought: Sought, meanings: &'a [Entity]) -> &'a [Entity]
    ensures { result.now ≡ counted sought meanings.now }
{
    match sought {
        Sought::Qualifier => { if qualify(meanings) { meanings } else { &[] } }
        _ => meanings,
    }
}

/// Whether a lookup looks into a scope.
fn looks_into(sought: Sought, place: ScopeId) -> bool
    ensures { result ≡ looks_into sought place }
{
    !matches!((sought, place), (Sought::NonMember, ScopeId::Class(_)))
}

impl Scopes {
    /// What a class says of a name, looking so many levels deep: its own meanings, or those of its bases. None where it
    /// is ambiguous.
    fn members(
        &self,
        sought: Sought,
        levels: usize,
        class: ClassId,
        name: &[u8],
    ) -> Option<&[Entity]>
        ensures { option_copied result ≡ members self.now sought levels class name.now }
    {
        if levels == 0 {
            return Some(&[]);
        }
        let own = counted(sought, self.meanings_at(ScopeId::Class(class), name));
        if !own.is_empty() {
            return Some(own);
        }
        let mut sum: &[Entity] = &[];
        for base in self.bases_of(class) {
            let said = self.members(sought, levels - 1, *base, name)?;
            sum = agreed(sum, said)?;
        }
        Some(sum)
    }

    /// What a namespace, class or enumeration says of a name.
    fn said_in(&self, sought: Sought, place: ScopeId, name: &[u8]) -> Option<&[Entity]>
        ensures { option_copied result ≡ said_in self.now sought place name.now }
    {
        match place {
            ScopeId::Class(class) => self.members(sought, self.classes.len(), class, name),
            _ => Some(counted(sought, self.meanings_at(place, name))),
        }
    }

    /// What a scope that is entered says of a name.
    fn said_by<'a>(
        &'a self,
        sought: Sought,
        entered: &'a Entered,
        name: &[u8],
    ) -> Option<&'a [Entity]>
        ensures { option_copied result ≡ said_by self.now sought entered.now.scope entered.now name.now }
    {
        let Some(place) = entered.scope else {
            return Some(counted(sought, entered.own.meanings(name)));
        };
        if looks_into(sought, place) {
            self.said_in(sought, place, name)
        } else {
            Some(&[])
        }
    }

    /// What the innermost scope says of a name that says anything.
    fn said(&self, sought: Sought, name: &[u8]) -> Option<&[Entity]>
        ensures { option_copied result ≡ said_from self.now sought self.now.entered name.now }
    {
        for entered in self.entered.iter().rev() {
            let said = self.said_by(sought, entered, name)?;
            if !said.is_empty() {
                return Some(said);
            }
        }
        self.said_in(sought, GLOBAL, name)
    }

    /// What an unqualified name means: its meanings in the innermost scope, going outwards, that has any
    /// ([basic.lookup.unqual]). A class has its own meanings, or else those that its bases agree on
    /// ([class.member.lookup]). `Unknown` exactly where no scope has one; `Ambiguous` exactly where two bases of a class
    /// differ before one is found.
    pub fn find(&self, _types: &Types, name: &Text) -> Result<Found, LookAnswer>
        ensures { Answers (find_answer self.now name.now) result }
    {
        self.find_as(Sought::Meaning, name)
    }

    /// What a qualified name means in a namespace, class or enumeration ([basic.lookup.qual]). `Unknown` exactly where
    /// it has no meaning there; `Ambiguous` exactly where two bases differ.
    pub fn find_in(&self, _types: &Types, place: ScopeId, name: &Text) -> Result<Found, LookAnswer>
        ensures { Answers (find_in_answer self.now place name.now) result }
    {
        self.find_in_as(Sought::Meaning, place, name)
    }

    /// What an unqualified name means where only some meanings count: before `::` a namespace or a type, and for an
    /// operator what no class has. A scope whose meanings of the name don't count is passed over, outwards
    /// ([basic.lookup.qual], [over.match.oper]). The answers are those of `find`.
    pub fn find_as(&self, sought: Sought, name: &Text) -> Result<Found, LookAnswer>
        ensures { Answers (find_as_answer self.now sought name.now) result }
    {
        answered(self.alloc, self.said(sought, name.as_slice()))
    }

    /// What a qualified name means in a namespace, class or enumeration, where only some meanings count. The answers
    /// are those of `find_in`.
    pub fn find_in_as(
        &self,
        sought: Sought,
        place: ScopeId,
        name: &Text,
    ) -> Result<Found, LookAnswer>
        ensures { Answers (find_in_as_answer self.now sought place name.now) result }
    {
        answered(self.alloc, self.said_in(sought, place, name.as_slice()))
    }
}
