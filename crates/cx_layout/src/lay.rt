//! Laying types into columns.

ghost use Rattle.std.specs.Prelude.{◌≡◌, ℕ, ◌+◌, ◌*◌, ◌<◌, ◌≤◌, [], ◌∷◌, ◌++◌, true, false, List, length, slice_get, Option, Some, None, is_some, IfOk, IfSome, IsSome, OnOk, OnErr, option_map};
ghost use Rattle.cx_type_defs.specs.Tables.{body_at};
ghost use Rattle.cx_type_defs.specs.Questions.{Part, OfType, OfClass};
ghost use Rattle.cx_layout.specs.declared.columns.Kind.TheVariants as Kinds;
ghost use Rattle.cx_layout.specs.Forms.{Row, Leaf, together};
ghost use Rattle.cx_layout.specs.TypeForms.{form_in, class_form};
ghost use Rattle.cx_layout.specs.Laying.{piece_part, HasRoom, LaysForm, group_parts, group_forms, GroupHasRoom, LaysGroup, parts_seen, under_in};

use crate::columns::{ClassParts, Columns, Kind, Node, Under};
use cx_base::Memory;
use cx_types::{ClassId, ClassKey, Step, TypeId, TypeKind, Types};
use std::alloc::Global;

/// What is laid: an object of a type, or a base.
#[derive(Clone, Copy)]
pub(crate) enum Piece {
    Type(TypeId),
    Class(ClassId),
}

/// The bases of a class, or else its members: the class and its node, how many there are, from which of its cells on, and
/// whether they share their cells.
#[derive(Clone, Copy)]
pub(crate) struct Group {
    pub(crate) class: ClassId,
    pub(crate) node: u32,
    pub(crate) of_bases: bool,
    pub(crate) shared: bool,
    pub(crate) count: u32,
    pub(crate) offset: u32,
}

/// A base or a member.
fn piece_at(types: &Types, class: ClassId, of_bases: bool, i: u32) -> Piece
    requires { (ps : List Part) × (group_parts types.now class of_bases ≡ Some ps) × (i < length ps) }
    ensures { (ps : List Part) → group_parts types.now class of_bases ≡ Some ps → slice_get ps i ≡ Some (piece_part result) }
{
    if of_bases {
        Piece::Class(types.base_at(class, i))
    } else {
        Piece::Type(types.field_at(class, i))
    }
}

/// A refused push changes nothing.
pub(crate) fn push<T: Drop>(items: &mut Vec<T>, item: T) -> Result<(), Memory>
    ensures ok { OnOk result (items.new.items ≡ items.old.items ++ item ∷ []) }
    ensures err { OnErr result (items.new.items ≡ items.old.items) }
{
    match items.push(item) {
        Ok(()) => Ok(()),
        Err(_) => Err(Memory),
    }
}

/// A node whose kind and cells aren't known yet.
fn open_node(under: Under) -> Node
    ensures { result ≡ record { kind = Kinds.Scalar; cells = 1; bases_from = 0; members_from = 0; under = under } }
{
    Node {
        kind: Kind::Scalar,
        cells: 1,
        bases_from: 0,
        members_from: 0,
        under,
    }
}

impl Columns {
    /// Lays a part behind what stands, and gives its cells. It takes native stack by the depth of the type.
    #[cycle(lay)]
    pub(crate) fn lay_piece(
        &mut self,
        alloc: Global,
        types: &Types,
        piece: Piece,
        levels: u32,
        under: Under,
    ) -> Result<u32, Memory>
        requires { HasRoom self.old.nodes.items self.old.parts.items under.offset (form_in types.now levels (piece_part piece)) }
        ensures { IfOk result (λ c. LaysForm self.old.nodes.items self.old.parts.items self.new.nodes.items self.new.parts.items under (form_in types.now levels (piece_part piece)) c) }
    {
        match piece {
            Piece::Class(class) => self.lay_class(alloc, types, class, levels - 1, under),
            Piece::Type(ty) => match types.row(ty).kind {
                TypeKind::Array(of, count) => {
                    self.lay_array(alloc, types, of, count, levels - 1, under)
                }
                TypeKind::Class(class) => self.lay_class(alloc, types, class, levels - 1, under),
                _ => self.lay_scalar(under),
            },
        }
    }

    fn lay_scalar(&mut self, under: Under) -> Result<u32, Memory>
        ensures { IfOk result (λ c. LaysForm self.old.nodes.items self.old.parts.items self.new.nodes.items self.new.parts.items under (Some Leaf) c) }
    {
        push(&mut self.nodes, open_node(under))?;
        Ok(1)
    }

    /// An array of so many of a type.
    #[cycle(lay)]
    pub(crate) fn lay_array(
        &mut self,
        alloc: Global,
        types: &Types,
        of: TypeId,
        count: u32,
        levels: u32,
        under: Under,
    ) -> Result<u32, Memory>
        requires { HasRoom self.old.nodes.items self.old.parts.items under.offset (option_map (Row count) (form_in types.now levels (OfType of))) }
        ensures { IfOk result (λ c. LaysForm self.old.nodes.items self.old.parts.items self.new.nodes.items self.new.parts.items under (option_map (Row count) (form_in types.now levels (OfType of))) c) }
    {
        let node = self.nodes.len() as u32;
        push(&mut self.nodes, open_node(under))?;
        let element = Under {
            parent: node,
            step: Step::Elem(0),
            offset: 0,
        };
        let cells = count * self.lay_piece(alloc, types, Piece::Type(of), levels, element)?;
        self.nodes[node as usize] = Node {
            kind: Kind::Array(count),
            cells,
            bases_from: 0,
            members_from: 0,
            under,
        };
        Ok(cells)
    }

    #[cycle(lay)]
    fn lay_class(
        &mut self,
        alloc: Global,
        types: &Types,
        class: ClassId,
        levels: u32,
        under: Under,
    ) -> Result<u32, Memory>
        requires { HasRoom self.old.nodes.items self.old.parts.items under.offset (class_form (form_in types.now levels) class (slice_get types.now.classes class.0)) }
        ensures { IfOk result (λ c. LaysForm self.old.nodes.items self.old.parts.items self.new.nodes.items self.new.parts.items under (class_form (form_in types.now levels) class (slice_get types.now.classes class.0)) c) }
    {
        let node = self.nodes.len() as u32;
        push(&mut self.nodes, open_node(under))?;
        let parts = class_parts(types, class);
        let mut starts = Vec::new(alloc);
        let bases = Group {
            class,
            node,
            of_bases: true,
            shared: false,
            count: parts.bases,
            offset: 1,
        };
        let base_cells = self.lay_group(alloc, types, bases, levels, &mut starts)?;
        let members = Group {
            class,
            node,
            of_bases: false,
            shared: parts.is_union,
            count: parts.members,
            offset: 1 + base_cells,
        };
        let member_cells = self.lay_group(alloc, types, members, levels, &mut starts)?;
        let bases_from = self.parts.len() as u32;
        match self.parts.extend_from_slice(starts.as_slice()) {
            Ok(()) => {}
            Err(_) => return Err(Memory),
        }
        let cells = 1 + base_cells + member_cells;
        self.nodes[node as usize] = Node {
            kind: Kind::Class(parts),
            cells,
            bases_from,
            members_from: bases_from + parts.bases,
            under,
        };
        Ok(cells)
    }

    /// The bases or members of a class one after the other; `starts` gets the nodes at which they begin.
    #[cycle(lay)]
    fn lay_group(
        &mut self,
        alloc: Global,
        types: &Types,
        group: Group,
        levels: u32,
        starts: &mut Vec<u32>,
    ) -> Result<u32, Memory>
        requires { GroupHasRoom self.old.nodes.items self.old.parts.items group (group_forms types.now levels group.class group.of_bases) }
        ensures { IfOk result (λ c. LaysGroup self.old.nodes.items self.old.parts.items starts.old.items self.new.nodes.items self.new.parts.items starts.new.items group (group_forms types.now levels group.class group.of_bases) c) }
    {
        let mut cells = 0;
        for i in 0..group.count {
            push(starts, self.nodes.len() as u32)?;
            let piece = piece_at(types, group.class, group.of_bases, i);
            let under = group.under(i, cells);
            let one = self.lay_piece(alloc, types, piece, levels, under)?;
            cells = group.joined(cells, one);
        }
        Ok(cells)
    }
}

impl Group {
    /// The cells of some parts together with those of one more.
    fn joined(&self, cells: u32, one: u32) -> u32
        requires { cells + one < 4294967296 }
        ensures { result ≡ together self.now.shared cells one }
    {
        if self.shared {
            cells.max(one)
        } else {
            cells + one
        }
    }

    /// How a part stands in the class, with so many cells before it.
    fn under(&self, i: u32, cells: u32) -> Under
        requires { self.now.offset + cells < 4294967296 }
        ensures { result ≡ under_in self.now i cells }
    {
        Under {
            parent: self.node,
            step: if self.of_bases {
                Step::Base(i)
            } else {
                Step::Field(i)
            },
            offset: if self.shared {
                self.offset
            } else {
                self.offset + cells
            },
        }
    }
}

/// What is known of a complete class.
fn class_parts(types: &Types, class: ClassId) -> ClassParts
    requires { IsSome (body_at types.now class) }
    ensures { parts_seen types.now class ≡ Some result }
{
    let is_union = match types.key(class) {
        ClassKey::Union => true,
        _ => false,
    };
    ClassParts {
        class,
        is_union,
        bases: if is_union { 0 } else { types.bases(class) },
        members: types.fields(class),
    }
}
