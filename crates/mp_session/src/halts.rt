use mp_nums::Memory;

/// Why a run ends before its input does.
#[derive(Clone, Copy, Debug, PartialEq, Eq)]
pub(crate) enum Halt {
    ReadFault,
    ShelfFault,
    WriteFault,
    InputLimit,
    Memory,
}

impl From<Memory> for Halt {
    ghost use Rattle.std.specs.Prelude.{◌≡◌};
    ghost use Rattle.mp_session.specs.declared.halts.Halt.TheVariants.{Memory as out_of_memory};

    ghost from_gives = { λ _ halt. halt ≡ out_of_memory };

    fn from(_memory: Memory) -> Halt {
        Halt::Memory
    }
}
