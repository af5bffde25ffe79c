ghost use Rattle.std.specs.Prelude.{◌≡◌, ◌||◌, [], OnOk, OnErr};
ghost use Rattle.cx_type_defs.specs.declared.ids.FuncId.{FuncId as Func};
ghost use Rattle.cx_type_defs.specs.Tables.{lists_function};

use cx_base::Memory;
use cx_type_defs::FuncId;
use indexmap::IndexSet;
use std::alloc::Global;
use std::marker::Model;

/// Functions, found by their hash.
#[derive(Debug, Drop)]
pub struct FuncSet {
    funcs: IndexSet<FuncId>,
}

impl Model for FuncSet {
    ghost use Rattle.std.specs.Prelude.{List};
    ghost use Rattle.cx_type_defs.specs.declared.ids.FuncId.{FuncId};

    ghost Value = { List FuncId };

    ghost view = { λ s. s.funcs.keys };
}

impl FuncSet {
    pub fn new(alloc: Global) -> FuncSet
        ensures { result ≡ [] }
    {
        FuncSet {
            funcs: IndexSet::new(alloc),
        }
    }

    pub fn has(&self, func: FuncId) -> bool
        ensures { result ≡ lists_function func self.now }
    {
        self.funcs.contains(&func)
    }

    /// Puts each of them in. A refusal changes nothing.
    pub fn add_all(&mut self, funcs: &[FuncId]) -> Result<(), Memory>
        ensures ok { OnOk result ((f : Func) → lists_function f self.new ≡ (lists_function f self.old || lists_function f funcs.now)) }
        ensures err { OnErr result (self.new ≡ self.old) }
    {
        self.funcs.reserve(funcs.len()).map_err(|_| Memory)?;
        for func in funcs {
            self.funcs.insert(*func).unwrap();
        }
        Ok(())
    }
}
