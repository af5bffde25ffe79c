ghost use Rattle.std.specs.Prelude.{◌≡◌};
ghost use Rattle.cx_base.specs.declared.rule.Rule.{Rule};
ghost use Rattle.cx_base.specs.Rules.{tag_of};

use crate::Rule;

/// A rule with its tag: the standard's section in brackets, a space, and the rule's word.
#[derive(Clone, Copy, Debug)]
pub struct RuleRow {
    pub rule: Rule,
    pub tag: &'static str,
}

/// So many rows, one for each rule.
#[derive(Clone, Copy)]
pub struct Table<const N: usize> {
    pub rows: [RuleRow; N],
}

// Every rule with its tag, in order, handed to a macro.
macro_rules! each_rule {
    ($use_rows:ident $($with:tt)*) => {
        $use_rows! { $($with)*
            SourceTooLong "[profile] source-too-long",
            Directive "[profile] directive",
            LeftOut "[profile] left-out",
            BadByte "[lex.pptoken] bad-byte",
            OpenComment "[lex.comment] open-comment",
            BadNumber "[lex.icon] bad-number",
            NumberRange "[lex.icon] number-range",
            BadCharacter "[lex.ccon] bad-character",
            BadEscape "[lex.ccon] bad-escape",
            OpenString "[lex.string] open-string",
            LongName "[implimits] long-name",
            Syntax "[gram] syntax",
            Nesting "[profile] nesting",
            UnknownName "[basic.lookup] unknown-name",
            NameKind "[basic.lookup] name-kind",
            Redeclared "[basic.scope] redeclared",
            BadType "[dcl.type] bad-type",
            BadSpecifier "[dcl.spec] bad-specifier",
            Incomplete "[basic.types] incomplete",
            TypeTooLarge "[profile] type-too-large",
            SizeProfile "[profile] size-profile",
            LeftOutForm "[profile] left-out-form",
            ThisContext "[expr.prim.this] this-context",
            BadOperand "[expr] bad-operand",
            NotLvalue "[basic.lval] not-lvalue",
            ConstTarget "[dcl.type.cv] const-target",
            NoMatch "[over.match] no-match",
            Ambiguous "[over.match] ambiguous",
            DeletedCall "[dcl.fct.def.delete] deleted-call",
            NoConversion "[conv] no-conversion",
            Narrowing "[dcl.init.list] narrowing",
            BadInit "[dcl.init] bad-init",
            NoInitializer "[dcl.init] no-initializer",
            BadCast "[expr.cast] bad-cast",
            AbstractObject "[class.abstract] abstract-object",
            BadReturn "[stmt.return] bad-return",
            BadJump "[stmt.jump] bad-jump",
            BadCase "[stmt.switch] bad-case",
            BadOverride "[class.virtual] bad-override",
            BadSpecial "[special] bad-special",
            BadMemberInit "[class.base.init] bad-member-init",
            EnumRange "[dcl.enum] enum-range",
            BoundValue "[dcl.array] bound-value",
            ConstexprBody "[dcl.constexpr] constexpr-body",
            NotLiteral "[dcl.constexpr] not-literal",
            ConstinitStorage "[dcl.constinit] constinit-storage",
            AssertFailed "[dcl.pre] assert-failed",
            Overflow "[expr.pre] overflow",
            DivideByZero "[expr.mul] divide-by-zero",
            Quotient "[expr.mul] quotient",
            ShiftCount "[expr.shift] shift-count",
            EnumCast "[expr.static.cast] enum-cast",
            DownCast "[expr.static.cast] down-cast",
            NonConstexprCall "[expr.const] non-constexpr-call",
            UndefinedFunction "[expr.const] undefined-function",
            ThisUse "[expr.const] this-use",
            NotUsable "[expr.const] not-usable",
            UnboundReference "[expr.const] unbound-reference",
            VirtualObject "[expr.const] virtual-object",
            Indeterminate "[expr.const] indeterminate",
            UnspecifiedCompare "[expr.const] unspecified-compare",
            VoidCast "[expr.const] void-cast",
            Reinterpret "[expr.const] reinterpret",
            OutsideWrite "[expr.const] outside-write",
            ForeignDelete "[expr.const] foreign-delete",
            Throw "[expr.const] throw",
            Leak "[expr.const] leak",
            ResultIndeterminate "[expr.const] result-indeterminate",
            ResultPlace "[expr.const] result-place",
            PureVirtual "[class.abstract] pure-virtual",
            InactiveMember "[class.union] inactive-member",
            OutOfLifetime "[basic.life] out-of-lifetime",
            Dangling "[basic.stc] dangling",
            NullIndirection "[expr.unary.op] null-indirection",
            PastEnd "[expr.unary.op] past-end",
            PointerRange "[expr.add] pointer-range",
            PointerDistance "[expr.add] pointer-distance",
            ConstWrite "[dcl.type.cv] const-write",
            ArrayNewLength "[expr.new] array-new-length",
            DeleteForm "[expr.delete] delete-form",
            FlowOff "[stmt.return] flow-off",
            LimitDepth "[implimits] limit-depth",
            LimitExprs "[implimits] limit-exprs",
            LimitTurns "[implimits] limit-turns",
            LimitCells "[implimits] limit-cells",
            LimitObjects "[implimits] limit-objects",
        }
    };
}

macro_rules! table {
    ($($rule:ident $tag:literal,)*) => {
        Table { rows: [$(RuleRow { rule: Rule::$rule, tag: $tag }),*] }
    };
}

macro_rules! tag_in {
    ($of:ident, $($rule:ident $tag:literal,)*) => {
        match $of { $(Rule::$rule => $tag),* }
    };
}

/// Every rule with its tag, in order.
pub const RULES: Table<86> = each_rule!(table);

fn tag_of(rule: Rule) -> &'static str
    ensures { result.now ≡ tag_of rule }
{
    each_rule!(tag_in rule,)
}

/// The tag of a rule, `[section] word`. Different rules have different tags.
pub fn rule_tag(rule: Rule) -> &'static str
    ensures tag { result.now ≡ tag_of rule }
    ensures differ { (other : Rule) → tag_of other ≡ result.now → other ≡ rule }
{
    tag_of(rule)
}
