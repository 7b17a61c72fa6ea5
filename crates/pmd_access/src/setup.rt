//! Sets up the whole device, before any queue is started.

ghost use Rattle.std.specs.Prelude.{◌≡◌, ◌+◌, ◌*◌, ◌≤◌, [], ◌∷◌, All, length, Err, IsTrue, IsFalse, OnOk, IfErr};
ghost use Rattle.device_lock.specs.NicDevice.RegTable.Rows.{row_of};
ghost use Rattle.pmd_access.specs.Asks.{Asks, fault_in};
ghost use Rattle.pmd_access.specs.Begun.{BeganAs};
ghost use Rattle.pmd_access.specs.Frames.{is_frame};
ghost use Rattle.pmd_access.specs.Parts.{IsPart, all_settings, settings_in};
ghost use Rattle.pmd_access.specs.Setup.{AreSet, SettingFails, StopsSetting, IsInRow, mode_word};
ghost use Rattle.pmd_access.specs.Setup.{pools_word, fctrl_word, hlreg0_word, maxfrs_settings, word_in, packed};
ghost use Rattle.pmd_access.specs.Setup.{settings_of};
ghost use Rattle.pmd_access.specs.Refusals.{CanFail};

use crate::accesses::write;
use crate::fault::PmdFault;
use crate::frames::{SHORTEST_FRAME, is_frame};
use crate::nic::Nic;
use byteorder::{ByteOrder, LittleEndian};
use device_lock::{Mode, Place, Port, RowId, addr_of};
use reg_table::{Dmatxctl, Fctrl, Hlreg0, Rxcsum, Rxctrl, VtCtl};
use std::alloc::Global;

/// The value of VFRE and VFTE that enables every pool in the register.
const ALL_POOLS: u32 = 0xFFFF_FFFF;

/// The value of FCTRL with which the device accepts frames to any address.
const PROMISCUOUS: u32 = Fctrl::MPE.0 | Fctrl::UPE.0 | Fctrl::BAM.0;

/// The value of HLREG0 with which the device adds and strips the frame check sequence and pads short frames.
const PAD_AND_CHECK: u32 = Hlreg0::TXCRCEN.0 | Hlreg0::RXCRCSTRP.0 | Hlreg0::TXPADEN.0;

/// The settings of the whole device.
#[derive(Clone, Copy)]
pub struct Setup {
    /// How the queues are divided into pools.
    pub mode: Mode,
    /// The value of MRQC, which selects how a frame's queue is chosen.
    pub mrqc: u32,
    /// The key of the RSS hash.
    pub key: [u8; 40],
    /// The redirection table: 128 entries, each a 4-bit queue number.
    pub reta: [u8; 128],
    /// Whether to accept frames to any address.
    pub promiscuous: bool,
    /// The maximum length of a frame in bytes, with its frame check sequence: 1,518 to 9,728.
    pub frame: u16,
}

/// A register and the value to write to it.
#[derive(Clone, Copy)]
pub struct Setting {
    pub place: Place,
    pub word: u32,
}

/// A part of the setup.
#[derive(Clone, Copy)]
enum Part<'a> {
    /// Writes a value to one register of a row.
    Word(RowId, u16, u32),
    /// Writes bytes to the first registers of a row: four bytes to each register, lowest byte first.
    Bytes(RowId, u16, &'a [u8]),
    /// Writes no register.
    Nothing,
}

/// Returns the code of the mode in GCR_EXT.VT_Mode, bits 1 and 0.
fn mode_word(mode: Mode) -> u32
    ensures { result ≡ mode_word mode }
{
    match mode {
        Mode::Off => 0,
        Mode::Pools16 => 1,
        Mode::Pools32 => 2,
        Mode::Pools64 => 3,
    }
}

/// Returns the value of VT_CTL: pools are enabled in every mode except `Off`.
fn pools_word(mode: Mode) -> u32
    ensures { result ≡ pools_word mode }
{
    match mode {
        Mode::Off => 0,
        Mode::Pools16 | Mode::Pools32 | Mode::Pools64 => VtCtl::VT_ENA.0,
    }
}

/// Writes one register through the physical function.
///
/// Fails with `DeviceFault` if the device has no such register, and with `Call` if the write was refused.
pub fn set<N: Nic>(alloc: Global, nic: &mut N, setting: Setting) -> Result<(), PmdFault>
    requires { IsInRow setting.place }
    ensures set { OnOk result (AreSet (N.made nic.old) (N.made nic.new) (setting ∷ [])) }
    ensures began { BeganAs N.began nic.old nic.new }
    ensures refuses { N.refuses nic.new ≡ N.refuses nic.old }
    ensures refusal { IfErr result (λ f. CanFail (N.refuses nic.new) f) }
    ensures failed { IfErr result (λ f. SettingFails f (N.made nic.old) (N.made nic.new) setting) }
{
    let address = addr_of(setting.place);
    match write(alloc, nic, Port::Pf, address, setting.word) {
        Ok(true) => Ok(()),
        Ok(false) => Err(PmdFault::DeviceFault),
        Err(fault) => Err(PmdFault::Call(fault)),
    }
}

/// Returns the 32-bit value of the four bytes starting at `4 * index`, lowest byte first.
fn word_in(bytes: &[u8], index: usize) -> u32
    requires { 4 * index + 4 ≤ length bytes.now }
    ensures { result ≡ word_in bytes.now index }
{
    LittleEndian::read_u32(&bytes[4 * index..4 * index + 4])
}

/// Writes the bytes to the first `count` registers of a row, four bytes to each register.
#[tactic(auto, unfolding(crate::specs::Setup::packed))]
fn set_packed<N: Nic>(
    alloc: Global,
    nic: &mut N,
    row: RowId,
    bytes: &[u8],
    count: u16,
) -> Result<(), PmdFault>
    requires row { count ≤ (row_of row).count }
    requires bytes { 4 * count ≤ length bytes.now }
    ensures set { OnOk result (AreSet (N.made nic.old) (N.made nic.new) (packed row bytes.now count)) }
    ensures failed { IfErr result (λ f.
        StopsSetting f (N.made nic.old) (N.made nic.new) (packed row bytes.now count)) }
    ensures asks { Asks N.began N.refuses (fault_in result) nic.old nic.new }
{
    for index in 0..count {
        let word = word_in(bytes, usize::from(index));
        let place = Place { row, index };
        set(alloc, nic, Setting { place, word })?;
    }
    Ok(())
}

/// Returns the value of FCTRL, which determines the frames that the device accepts.
fn fctrl_word(promiscuous: bool) -> u32
    ensures { result ≡ fctrl_word promiscuous }
{
    if promiscuous {
        PROMISCUOUS
    } else {
        Fctrl::BAM.0
    }
}

/// Returns the value of HLREG0: the maximum frame length is 1,518 bytes, or the value in MAXFRS if `frame` is longer.
fn hlreg0_word(frame: u16) -> u32
    ensures { result ≡ hlreg0_word frame }
{
    if frame > SHORTEST_FRAME {
        PAD_AND_CHECK | Hlreg0::JUMBOEN.0
    } else {
        PAD_AND_CHECK
    }
}

/// Returns the part that writes MAXFRS, if the maximum frame length is above 1,518 bytes.
fn maxfrs(frame: u16) -> Part<'static>
    ensures settings { settings_in result ≡ maxfrs_settings frame }
    ensures known { IsPart result }
{
    if frame > SHORTEST_FRAME {
        Part::Word(RowId::Maxfrs, 0, 65_536 * u32::from(frame))
    } else {
        Part::Nothing
    }
}

/// Returns all parts of the setup, in order. The first parts configure the pools, all of which receive and send. The
/// next ones select how a frame's queue is chosen, which frames are accepted, and how long frames may be. The last ones
/// enable transmission and reception.
fn parts_of(setup: &Setup) -> [Part<'_>; 15]
    ensures settings { all_settings result ≡ settings_of setup.now }
    ensures known { All IsPart result }
{
    [
        Part::Word(RowId::GcrExt, 0, mode_word(setup.mode)),
        Part::Word(RowId::VtCtl, 0, pools_word(setup.mode)),
        Part::Word(RowId::Vfre, 0, ALL_POOLS),
        Part::Word(RowId::Vfre, 1, ALL_POOLS),
        Part::Word(RowId::Vfte, 0, ALL_POOLS),
        Part::Word(RowId::Vfte, 1, ALL_POOLS),
        Part::Word(RowId::Mrqc, 0, setup.mrqc),
        Part::Bytes(RowId::Rssrk, 10, &setup.key),
        Part::Bytes(RowId::Reta, 32, &setup.reta),
        Part::Word(RowId::Rxcsum, 0, Rxcsum::PCSD.0),
        Part::Word(RowId::Fctrl, 0, fctrl_word(setup.promiscuous)),
        maxfrs(setup.frame),
        Part::Word(RowId::Hlreg0, 0, hlreg0_word(setup.frame)),
        Part::Word(RowId::Dmatxctl, 0, Dmatxctl::TE.0),
        Part::Word(RowId::Rxctrl, 0, Rxctrl::RXEN.0),
    ]
}

/// Writes the registers of a part of the setup.
fn set_part<N: Nic>(alloc: Global, nic: &mut N, part: Part<'_>) -> Result<(), PmdFault>
    requires { IsPart part }
    ensures set { OnOk result (AreSet (N.made nic.old) (N.made nic.new) (settings_in part.entry)) }
    ensures failed { IfErr result (λ f. StopsSetting f (N.made nic.old) (N.made nic.new) (settings_in part.entry)) }
    ensures asks { Asks N.began N.refuses (fault_in result) nic.old nic.new }
{
    match part {
        Part::Word(row, index, word) => {
            let place = Place { row, index };
            set(alloc, nic, Setting { place, word })
        }
        Part::Bytes(row, count, bytes) => set_packed(alloc, nic, row, bytes, count),
        Part::Nothing => Ok(()),
    }
}

/// Sets up the whole device through the physical function. Writes, in this order, GCR_EXT, VT_CTL, VFRE, VFTE, MRQC,
/// RSSRK, RETA, RXCSUM, FCTRL, MAXFRS if frames may exceed 1,518 bytes, HLREG0, DMATXCTL and RXCTRL.
///
/// Fails with `BadSize` if `frame` isn't from 1,518 to 9,728; nothing is then written. Fails with `DeviceFault` if the
/// device lacks one of the registers, and with `Call` if a write was refused. The earlier writes have then been made.
pub fn pf_setup<N: Nic>(alloc: Global, nic: &mut N, setup: &Setup) -> Result<(), PmdFault>
    ensures set { OnOk result (AreSet (N.made nic.old) (N.made nic.new) (settings_of setup.now)) }
    ensures bad { IsFalse (is_frame setup.now.frame)
        → (result ≡ Err PmdFault.BadSize) × (N.made nic.new ≡ N.made nic.old) }
    ensures began { BeganAs N.began nic.old nic.new }
    ensures refuses { N.refuses nic.new ≡ N.refuses nic.old }
    ensures refusal { IfErr result (λ f. CanFail (N.refuses nic.new) f) }
    ensures failed { IfErr result (λ f. IsTrue (is_frame setup.now.frame)
        → StopsSetting f (N.made nic.old) (N.made nic.new) (settings_of setup.now)) }
{
    if !is_frame(setup.frame) {
        return Err(PmdFault::BadSize);
    }
    let parts: &[Part<'_>] = &parts_of(setup);
    for part in parts {
        set_part(alloc, nic, *part)?;
    }
    Ok(())
}
