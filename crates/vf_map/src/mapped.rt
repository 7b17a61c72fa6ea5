/// The address that an offset of a virtual function is mapped to.
#[derive(Clone, Copy, PartialEq, Eq, Debug)]
pub enum Mapped {
    /// The virtual function doesn't exist, or the mode has no pool for it.
    Absent,
    /// The function has no register at the offset.
    Hole,
    /// The register at this address of the physical function, in bytes.
    Pf(u32),
}
