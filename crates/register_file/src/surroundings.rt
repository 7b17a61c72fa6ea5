/// The state outside the registers that calculated registers report.
#[derive(Clone, Copy, PartialEq, Eq, Debug)]
pub struct Surroundings {
    /// Whether the link is up.
    pub link: bool,
    /// The size of the EEPROM image as an exponent s, 0 to 8: the image has 64 * 2^s words.
    pub eeprom: u8,
}
