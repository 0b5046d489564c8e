//! What an instruction's cost depends on.

ghost use Rattle.std.specs.Prelude.{◌≡◌, ◌+◌, if◌then◌else◌};
ghost use Rattle.ds_base.specs.declared.processors.Arch.TheVariants.{V4, V5};
ghost use Rattle.arm_core.specs.Costs.{clocks, jump_clocks, HasClocks};

use ds_base::Arch;

/// The class of an instruction's cost. (Our choice; the costs stand in `specs/Costs.antt`.)
#[derive(Clone, Copy, PartialEq, Eq)]
pub enum Class {
    /// Data processing, the status registers, CLZ, the saturating sums, PLD and the first half of Thumb's BL.
    Processing,
    /// Data processing whose shift is by a register.
    ShiftByRegister,
    /// MUL, MLA, and the multiplies of halves but SMLALxy.
    Multiply,
    /// The long multiplies, and SMLALxy.
    LongMultiply,
    /// A load of one register.
    Load,
    /// A store of one register.
    Store,
    /// A load of so many registers; LDRD is of two.
    LoadMultiple(u32),
    /// A store of so many registers; STRD is of two.
    StoreMultiple(u32),
    /// The branches.
    Branch,
    /// SWP.
    Swap,
    /// MCR and MRC.
    Coprocessor,
    /// An exception's entry.
    Entry,
    /// An instruction whose condition fails, or one that does nothing.
    Nothing,
}

impl Class {
    /// What the class costs, in the processor's own clocks.
    #[inline(always)]
    pub fn clocks(self, arch: Arch) -> u32
        requires { HasClocks self }
        ensures { result ≡ clocks self arch }
    {
        match arch {
            Arch::V5 => self.clocks_of_nine(),
            Arch::V4 => self.clocks_of_seven(),
        }
    }

    #[inline(always)]
    fn clocks_of_nine(self) -> u32
        requires { HasClocks self }
        ensures { result ≡ clocks self V5 }
    {
        match self {
            Class::Processing | Class::Store | Class::Nothing => 1,
            Class::ShiftByRegister | Class::Multiply | Class::Load | Class::Coprocessor => 2,
            Class::LongMultiply | Class::Branch | Class::Entry => 3,
            Class::Swap => 4,
            Class::LoadMultiple(n) => n + 1,
            Class::StoreMultiple(n) => n.max(1),
        }
    }

    #[inline(always)]
    fn clocks_of_seven(self) -> u32
        requires { HasClocks self }
        ensures { result ≡ clocks self V4 }
    {
        match self {
            Class::Processing | Class::Nothing => 1,
            Class::ShiftByRegister | Class::Store => 2,
            Class::Load | Class::Branch | Class::Entry | Class::Coprocessor => 3,
            Class::Multiply | Class::Swap => 4,
            Class::LongMultiply => 5,
            Class::LoadMultiple(n) => n + 2,
            Class::StoreMultiple(n) => n + 1,
        }
    }

    /// What an instruction of the class costs: a write of r15 that isn't a branch's or an exception's adds two clocks.
    #[inline(always)]
    pub fn cost(self, arch: Arch, jumps: bool) -> u32
        requires { HasClocks self }
        ensures { result ≡ clocks self arch + (if jumps then jump_clocks else 0) }
    {
        self.clocks(arch) + if jumps { 2 } else { 0 }
    }
}
