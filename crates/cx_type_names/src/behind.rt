//! What stands from a place of the list of tokens on.
ghost use Rattle.std.specs.Prelude.{◌≡◌, [], ◌∷◌, option_map, IfOk, OnOk};
ghost use Rattle.cx_type_names.specs.Groups as spec;
ghost use Rattle.cx_type_names.specs.Groups.{behind_groups};
ghost use Rattle.cx_type_names.specs.Names as names;
ghost use Rattle.cx_type_names.specs.Names.{name_behind, name_in_front};
ghost use Rattle.cx_type_names.specs.Roles as roles;
ghost use Rattle.cx_type_names.specs.Walk.{closed_by, closings_before, known_of, matched_by, rest_of};
ghost use Rattle.cx_type_names.specs.Walk as walk;

use crate::closers::{Closer, Closers};
use crate::role::{Bracket, Role, role_of};
use cx_base::Memory;
use cx_token_defs::Token;
use std::alloc::Global;
use std::marker::Model;

/// What is known of the tokens from a place on.
#[derive(Drop)]
pub struct Behind<'a> {
    /// The tokens, attribute groups passed over.
    past: &'a [Token],
    /// The identifier in front, if attribute groups and `=` stand behind it.
    alias: Option<&'a Token>,
    /// The token directly before the first `;`.
    last: Option<&'a Token>,
    /// What stands behind the `]` of a `[` in front.
    inner: Option<&'a [Token]>,
    closers: Closers<'a>,
}

impl<'a> Model for Behind<'a> {
    ghost use Rattle.std.specs.Prelude.{option_map};
    ghost use Rattle.cx_type_names.specs.Roles as roles;
    ghost use Rattle.cx_type_names.specs.Walk.{Known};

    ghost Value = { Known };

    ghost view = { λ b. record {
      past = b.past.now;
      alias = option_map (λ t. t.now) b.alias;
      last = option_map (λ t. t.now) b.last;
      inner = option_map (λ r. r.now) b.inner;
      closings = b.closers;
    } };
}

fn identifier(token: &Token) -> Option<&Token>
    ensures { option_map (λ t. t.now) result ≡ names.identifier token.now }
{
    match role_of(token) {
        Role::Name => Some(token),
        _ => None,
    }
}

fn identifier_in_front(tokens: &[Token]) -> Option<&Token>
    ensures { option_map (λ t. t.now) result ≡ names.identifier_in_front tokens.now }
{
    match tokens {
        [token, ..] => identifier(token),
        [] => None,
    }
}

fn equals_in_front(tokens: &[Token]) -> bool
    ensures { result ≡ names.equals_in_front tokens.now }
{
    match tokens {
        [token, ..] => matches!(role_of(token), Role::Equals),
        [] => false,
    }
}

fn semicolon_in_front(tokens: &[Token]) -> bool
    ensures { result ≡ names.semicolon_in_front tokens.now }
{
    match tokens {
        [token, ..] => matches!(role_of(token), Role::Semicolon),
        [] => false,
    }
}

fn closer_in_front(tokens: &[Token]) -> bool
    ensures { result ≡ spec.closer_in_front tokens.now }
{
    match tokens {
        [token, ..] => matches!(role_of(token), Role::Closes(Bracket::Square)),
        [] => false,
    }
}

// The identifier, if `=` stands behind the groups that follow it.
fn alias_in_front<'a>(token: &'a Token, rest: &[Token], past: &[Token]) -> Option<&'a Token>
    requires { past.now ≡ behind_groups rest.now }
    ensures { option_map (λ t. t.now) result ≡ names.alias_in_front (token.now ∷ rest.now) }
{
    if equals_in_front(past) {
        identifier(token)
    } else {
        None
    }
}

// The token directly before the first `;`, by the one behind this token.
fn before_semicolon<'a>(
    role: Role,
    token: &'a Token,
    rest: &[Token],
    last: Option<&'a Token>,
) -> Option<&'a Token>
    requires role { role ≡ roles.role_of token.now }
    requires last { option_map (λ t. t.now) last ≡ names.before_semicolon rest.now }
    ensures { option_map (λ t. t.now) result ≡ names.before_semicolon (token.now ∷ rest.now) }
{
    if matches!(role, Role::Semicolon) {
        None
    } else if semicolon_in_front(rest) {
        Some(token)
    } else {
        last
    }
}

// The closing bracket that the token has, which is taken from the list; a closing bracket is put before the others.
fn bracket<'a>(
    closers: &mut Closers<'a>,
    role: Role,
    rest: &'a [Token],
    past: &'a [Token],
) -> Result<Option<Closer<'a>>, Memory>
    requires { past.now ≡ behind_groups rest.now }
    ensures left { OnOk result (closers.new ≡ closings_before role rest.now closers.old) }
    ensures own { IfOk result (λ closer. closer ≡ matched_by role closers.old) }
{
    match role {
        Role::Opens(bracket) => Ok(closers.open(bracket)),
        Role::Closes(bracket) => match closers.close(bracket, rest, past) {
            Ok(()) => Ok(None),
            Err(Memory) => Err(Memory),
        },
        Role::End => {
            closers.clear();
            Ok(None)
        }
        _ => Ok(None),
    }
}

fn opens_square(role: Role) -> bool
    ensures { result ≡ walk.opens_square role }
{
    matches!(role, Role::Opens(Bracket::Square))
}

// The tokens without their groups in front.
fn passed<'a>(
    role: Role,
    front: &'a [Token],
    inner: Option<&'a [Token]>,
    closer: &Option<Closer<'a>>,
) -> &'a [Token]
    ensures { result.now ≡ walk.passed role front.now (option_map (λ r. r.now) inner.entry) closer.now }
{
    match (inner, closer) {
        (Some(inner), Some(closer)) if opens_square(role) && closer_in_front(inner) =>
            closer.past(),
        _ => front,
    }
}

// What stands behind the `]` of a `[`.
fn closed_by<'a>(role: Role, closer: &Option<Closer<'a>>) -> Option<&'a [Token]>
    ensures { option_map (λ r. r.now) result ≡ closed_by role closer.now }
{
    match closer {
        Some(closer) if opens_square(role) => Some(closer.rest()),
        _ => None,
    }
}

impl<'a> Behind<'a> {
    /// What is known behind the last token.
    #[tactic(auto, unfolding(crate::specs::Groups::behind_groups))]
    pub fn new(alloc: Global, end: &'a [Token]) -> Behind<'a>
        requires { end.now ≡ [] }
        ensures { result ≡ known_of [] }
    {
        Behind {
            past: end,
            alias: None,
            last: None,
            inner: None,
            closers: Closers::new(alloc),
        }
    }

    // The identifier that a token makes a type's name, if this is what stands behind it.
    fn name(&self, role: Role) -> Option<&'a Token>
        ensures { option_map (λ t. t.now) result ≡ walk.name_by role self.now }
    {
        match role {
            Role::Key => identifier_in_front(self.past),
            Role::Using => self.alias,
            Role::Typedef => match self.last {
                Some(token) => identifier(token),
                None => None,
            },
            _ => None,
        }
    }

    // Goes a token towards the front.
    fn pass(
        &mut self,
        front: &'a [Token],
        token: &'a Token,
        rest: &'a [Token],
    ) -> Result<Option<&'a Token>, Memory>
        requires shape { front.now ≡ token.now ∷ rest.now }
        requires known { self.old ≡ known_of rest.now }
        ensures known { OnOk result (self.new ≡ known_of (token.now ∷ rest.now)) }
        ensures name { IfOk result (λ name. option_map (λ t. t.now) name ≡ name_in_front (token.now ∷ rest.now)) }
    {
        let role = role_of(token);
        let name = self.name(role);
        let closer = bracket(&mut self.closers, role, rest, self.past)?;
        let alias = alias_in_front(token, rest, self.past);
        self.past = passed(role, front, self.inner, &closer);
        self.alias = alias;
        self.last = before_semicolon(role, token, rest, self.last);
        self.inner = closed_by(role, &closer);
        Ok(name)
    }

    /// Goes a token towards the front. Gives the identifier that this token makes a type's name.
    pub fn step(&mut self, front: &'a [Token]) -> Result<Option<&'a Token>, Memory>
        requires { self.old ≡ known_of (rest_of front.now) }
        ensures known { OnOk result (self.new ≡ known_of front.now) }
        ensures name { IfOk result (λ name. option_map (λ t. t.now) name ≡ name_in_front front.now) }
    {
        match front {
            [token, rest @ ..] => self.pass(front, token, rest),
            [] => Ok(None),
        }
    }
}
