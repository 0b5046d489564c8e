//! Why a cartridge is refused.

/// A field of a cartridge's header that has a rule, in the order in which the rules are tried. (GBATEK, "DS Cartridge Header";
/// the rules and their order are our choice.)
#[derive(Clone, Copy, PartialEq, Eq, Debug)]
pub enum HeaderField {
    /// The file has at least 512 bytes; the value is its length.
    Short,
    /// The unit code is 0 or 2; the value is the code.
    UnitCode,
    /// ARM9's image has at most 4 MiB and lies in the file; the value is its offset in the file.
    Arm9Rom,
    /// ARM9's image goes to main memory, 2000000h to 2FFFFFFh; the value is its address.
    Arm9Place,
    /// ARM9 begins at a multiple of 4 there; the value is that address.
    Arm9Entry,
    /// ARM7's image has at most 4 MiB and lies in the file; the value is its offset in the file.
    Arm7Rom,
    /// ARM7's image goes to main memory, or to 37F8000h to 380FFFFh; the value is its address.
    Arm7Place,
    /// ARM7 begins at a multiple of 4 in either; the value is that address.
    Arm7Entry,
}

/// The first field of a header that breaks its rule.
#[derive(Clone, Copy, PartialEq, Eq, Debug)]
pub struct HeaderFault {
    /// Which field it is.
    pub field: HeaderField,
    /// The value that breaks the rule.
    pub value: u32,
}
