//! The device's settings, derived from a history's entries.

ghost use Rattle.std.specs.Prelude.{◌≡◌};
ghost use Rattle.device_lock.specs.Reported.{first_settings, frames_set, frames_written, limit_of, settings_after, usual_frames};

use crate::alone::{mode_after, place_at};
use nic_device::{Event, EventNote, Mode, Place, RowId, asks_reset};
use reg_table::{Hlreg0, has_flag};

/// MAXFRS bits 31 to 16 after a reset.
const USUAL_LONGEST: u16 = 1518;

/// The frame limit in bytes while MAXFRS doesn't apply.
const USUAL_LIMIT: u16 = 1514;

/// The size in bytes of a frame's check sequence.
const FRAME_CHECK: u16 = 4;

/// The settings that limit the length of frames.
#[derive(Clone, Copy, PartialEq, Eq, Debug)]
pub struct Frames {
    /// Whether MAXFRS applies: HLREG0 bit 2.
    pub jumbo: bool,
    /// MAXFRS bits 31 to 16: the maximum frame length in bytes.
    pub longest: u16,
}

/// The device settings that a driver relies on when it starts.
#[derive(Clone, Copy, PartialEq, Eq, Debug)]
pub struct Settings {
    /// How the queues are divided into pools.
    pub mode: Mode,
    /// The settings that limit the length of frames.
    pub frames: Frames,
}

impl Frames {
    /// Returns the frame length settings after a reset.
    fn usual() -> Frames
        ensures { result ≡ usual_frames }
    {
        Frames {
            jumbo: false,
            longest: USUAL_LONGEST,
        }
    }

    /// Returns the frame limit: the maximum length of a frame in bytes, without its check sequence.
    pub fn limit(self) -> u16
        ensures { result ≡ limit_of self }
    {
        if self.jumbo {
            self.longest.saturating_sub(FRAME_CHECK)
        } else {
            USUAL_LIMIT
        }
    }

    /// Returns the frame length settings after a write to a register.
    fn set(self, place: Place, word: u32) -> Frames
        ensures { result ≡ frames_set self place.row word }
    {
        match place.row {
            RowId::Hlreg0 => Frames {
                jumbo: has_flag(word, Hlreg0::JUMBOEN),
                longest: self.longest,
            },
            RowId::Maxfrs => Frames {
                jumbo: self.jumbo,
                longest: (word >> 16) as u16,
            },
            RowId::Ctrl if asks_reset(place, word) => Frames::usual(),
            _ => self,
        }
    }

    /// Returns the frame length settings after a value is written to `place`. If `place` is `None`, nothing changes.
    fn written(self, place: Option<Place>, word: u32) -> Frames
        ensures { result ≡ frames_written self place word }
    {
        match place {
            None => self,
            Some(place) => self.set(place, word),
        }
    }
}

impl Settings {
    /// Returns the settings of a new device.
    pub fn new() -> Settings
        ensures { result ≡ first_settings }
    {
        Settings {
            mode: Mode::Off,
            frames: Frames::usual(),
        }
    }

    /// Returns the settings after an event at a device with `vfs` virtual functions.
    pub fn after(self, vfs: u8, event: &EventNote) -> Settings
        ensures { result ≡ settings_after vfs self event.now }
    {
        match event {
            Event::Write(port, number, word) => Settings {
                mode: mode_after(vfs, self.mode, event),
                frames: self
                    .frames
                    .written(place_at(self.mode, vfs, *port, *number), *word),
            },
            _ => self,
        }
    }
}
