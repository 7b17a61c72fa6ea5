use reg_table::Place;

/// What an offset of a virtual function reaches.
#[derive(Clone, Copy, PartialEq, Eq, Debug)]
pub enum Located {
    /// The virtual function doesn't exist, or the mode has no pool for it. A read returns all ones.
    Absent,
    /// The function has no register at the offset. A read returns 0.
    Hole,
    /// The offset reaches this register of the device.
    Register(Place),
}
