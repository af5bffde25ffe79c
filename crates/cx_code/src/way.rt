ghost use Rattle.std.specs.Prelude.{◌≡◌};
ghost use Rattle.cx_code.specs.Ways.{way};

use crate::Instr;

/// Where an instruction leads: to the next one, to a place further on, to either, back for a turn, or out of the code.
#[derive(Clone, Copy, Debug, PartialEq, Eq)]
pub enum Way {
    Forth,
    Jump(usize),
    Either(usize),
    Back(usize),
    End,
}

/// The table of ways on.
pub fn way_of(instr: &Instr) -> Way
    ensures { result ≡ way instr.now }
{
    match instr {
        Instr::Go(to) => Way::Jump(*to),
        Instr::Unless(to) => Way::Either(*to),
        Instr::Turn(to) => Way::Back(*to),
        Instr::Break(_) | Instr::Return | Instr::Leave => Way::End,
        _ => Way::Forth,
    }
}
