//! How many levels a statement's text goes deeper than its own place ([gram], [implimits]).

ghost use Rattle.std.specs.Prelude.{◌≡◌, ◌<◌, ◌^◌, map};
ghost use Rattle.cx_levels.specs.Levels.{greatest, perhaps};
ghost use Rattle.cx_levels.specs.ExprLevels.{levels_of_expr, levels_within};
ghost use Rattle.cx_levels.specs.StmtLevels.{levels_of_alias, levels_of_assert, levels_of_block, levels_of_enumeration, levels_of_enumerator, levels_of_for_start, levels_of_init, levels_of_item, levels_of_label, levels_of_local, levels_of_returned, levels_of_stmt, levels_of_stmt_kind, levels_of_switch_item, levels_of_var};

use crate::expr_depth::{args_levels, bounds_levels, braces_levels, expr_levels, type_id_levels};
use cx_tree::{
    Alias, Assert, Block, Enumeration, EnumerationKind, Enumerator, Expr, ForStart, Init, InitKind,
    Item, Label, LabelKind, Local, Returned, Stmt, StmtKind, SwitchItem, Var,
};

/// Of a `static_assert`.
pub fn assert_levels(declaration: &Assert) -> u32
    requires { levels_of_assert declaration.now < 2 ^ 32 }
    ensures { result ≡ levels_of_assert declaration.now }
{
    expr_levels(&declaration.condition)
}

/// Of an alias.
pub fn alias_levels(declaration: &Alias) -> u32
    requires { levels_of_alias declaration.now < 2 ^ 32 }
    ensures { result ≡ levels_of_alias declaration.now }
{
    declaration.attrs.max(type_id_levels(&declaration.ty))
}

/// Of an enumeration.
pub fn enumeration_levels(declaration: &Enumeration) -> u32
    requires { levels_of_enumeration declaration.now < 2 ^ 32 }
    ensures { result ≡ levels_of_enumeration declaration.now }
{
    let attrs = declaration.attrs;
    match &declaration.kind {
        EnumerationKind::Named(_, _, _, None) => attrs,
        EnumerationKind::Named(_, _, _, Some(enumerators))
        | EnumerationKind::Unnamed(_, enumerators) => {
            attrs.max(enumerators_levels(enumerators.as_slice()))
        }
    }
}

fn enumerators_levels(enumerators: &[Enumerator]) -> u32
    requires { greatest (map levels_of_enumerator enumerators.now) < 2 ^ 32 }
    ensures { result ≡ greatest (map levels_of_enumerator enumerators.now) }
{
    let mut most = 0;
    for enumerator in enumerators {
        most = most.max(enumerator_levels(enumerator));
    }
    most
}

fn enumerator_levels(enumerator: &Enumerator) -> u32
    requires { levels_of_enumerator enumerator.now < 2 ^ 32 }
    ensures { result ≡ levels_of_enumerator enumerator.now }
{
    match &enumerator.value {
        Some(value) => enumerator.attrs.max(expr_levels(value)),
        None => enumerator.attrs,
    }
}

/// Of variables of a block.
pub fn local_levels(local: &Local) -> u32
    requires { levels_of_local local.now < 2 ^ 32 }
    ensures { result ≡ levels_of_local local.now }
{
    local.attrs.max(vars_levels(local.vars.as_slice()))
}

/// Of variables.
pub fn vars_levels(vars: &[Var]) -> u32
    requires { greatest (map levels_of_var vars.now) < 2 ^ 32 }
    ensures { result ≡ greatest (map levels_of_var vars.now) }
{
    let mut most = 0;
    for var in vars {
        most = most.max(var_levels(var));
    }
    most
}

fn var_levels(var: &Var) -> u32
    requires { levels_of_var var.now < 2 ^ 32 }
    ensures { result ≡ levels_of_var var.now }
{
    let declared = var.attrs.max(bounds_levels(var.bounds.as_slice()));
    match &var.init {
        Some(init) => declared.max(init_levels(init)),
        None => declared,
    }
}

fn init_levels(init: &Init) -> u32
    requires { levels_of_init init.now < 2 ^ 32 }
    ensures { result ≡ levels_of_init init.now }
{
    match &init.kind {
        InitKind::Equals(value) => expr_levels(value),
        InitKind::EqualsList(braces) | InitKind::DirectList(braces) => braces_levels(braces),
        InitKind::Direct(args) => args_levels(args),
    }
}

/// Of an expression that stands one level deeper, if it is there.
pub fn within_levels(expr: &Option<Expr>) -> u32
    requires { perhaps levels_within expr.now < 2 ^ 32 }
    ensures { result ≡ perhaps levels_within expr.now }
{
    match expr {
        Some(inner) => 1 + expr_levels(inner),
        None => 0,
    }
}

fn for_start_levels(start: &ForStart) -> u32
    requires { levels_of_for_start start.now < 2 ^ 32 }
    ensures { result ≡ levels_of_for_start start.now }
{
    match start {
        ForStart::Local(local) => local_levels(local),
        ForStart::Expr(expr) => within_levels(expr),
    }
}

fn label_levels(label: &Label) -> u32
    requires { levels_of_label label.now < 2 ^ 32 }
    ensures { result ≡ levels_of_label label.now }
{
    match &label.kind {
        LabelKind::Case(value) => expr_levels(value),
        LabelKind::Default => 0,
    }
}

fn returned_levels(returned: &Option<Returned>) -> u32
    requires { perhaps levels_of_returned returned.now < 2 ^ 32 }
    ensures { result ≡ perhaps levels_of_returned returned.now }
{
    match returned {
        Some(Returned::Value(value)) => expr_levels(value),
        Some(Returned::List(braces)) => braces_levels(braces),
        None => 0,
    }
}

/// Of a block.
#[cycle(levels)]
pub fn block_levels(block: &Block) -> u32
    requires { levels_of_block block.now < 2 ^ 32 }
    ensures { result ≡ levels_of_block block.now }
{
    let mut most = 0;
    for item in block.items.as_slice() {
        most = most.max(1 + item_levels(item));
    }
    most
}

#[cycle(levels)]
fn item_levels(item: &Item) -> u32
    requires { levels_of_item item.now < 2 ^ 32 }
    ensures { result ≡ levels_of_item item.now }
{
    match item {
        Item::Stmt(stmt) => stmt_levels(stmt),
        Item::Assert(declaration) => assert_levels(declaration),
        Item::Alias(declaration) => alias_levels(declaration),
        Item::Typedef(_) => 0,
        Item::Enum(declaration) => enumeration_levels(declaration),
        Item::Local(local) => local_levels(local),
    }
}

#[cycle(levels)]
fn stmt_levels(stmt: &Stmt) -> u32
    requires { levels_of_stmt stmt.now < 2 ^ 32 }
    ensures { result ≡ levels_of_stmt stmt.now }
{
    stmt.attrs.max(stmt_kind_levels(&stmt.kind))
}

#[cycle(levels)]
fn stmt_kind_levels(kind: &StmtKind) -> u32
    requires { levels_of_stmt_kind kind.now < 2 ^ 32 }
    ensures { result ≡ levels_of_stmt_kind kind.now }
{
    match kind {
        StmtKind::Block(block) => block_levels(block),
        StmtKind::Empty | StmtKind::Break(_) | StmtKind::Continue(_) => 0,
        StmtKind::Expr(expr) => expr_levels(expr),
        StmtKind::If(_, condition, body, None) => 1
            + expr_levels(condition).max(stmt_levels(body.get())),
        StmtKind::If(_, condition, body, Some(other)) => {
            let bodies = stmt_levels(body.get()).max(stmt_levels(other.get()));
            1 + expr_levels(condition).max(bodies)
        }
        StmtKind::While(_, expr, body)
        | StmtKind::Do(_, body, expr)
        | StmtKind::ForRange(_, _, _, _, expr, body) => {
            1 + expr_levels(expr).max(stmt_levels(body.get()))
        }
        StmtKind::For(_, start, condition, change, body) => {
            let head = for_start_levels(start)
                .max(within_levels(condition))
                .max(within_levels(change));
            head.max(1 + stmt_levels(body.get()))
        }
        StmtKind::Switch(condition, items) => {
            (1 + expr_levels(condition)).max(switch_levels(items.as_slice()))
        }
        StmtKind::Return(value) => returned_levels(value),
    }
}

#[cycle(levels)]
fn switch_levels(items: &[SwitchItem]) -> u32
    requires { greatest (map levels_of_switch_item items.now) < 2 ^ 32 }
    ensures { result ≡ greatest (map levels_of_switch_item items.now) }
{
    let mut most = 0;
    for item in items {
        most = most.max(switch_item_levels(item));
    }
    most
}

#[cycle(levels)]
fn switch_item_levels(item: &SwitchItem) -> u32
    requires { levels_of_switch_item item.now < 2 ^ 32 }
    ensures { result ≡ levels_of_switch_item item.now }
{
    match item {
        SwitchItem::Label(label) => label_levels(label),
        SwitchItem::Item(inner) => 1 + item_levels(inner),
    }
}
