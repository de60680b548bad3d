//! `bootswap make-device`: makes a device file from the sizes of a flash and the names of a device.
ghost use Rattle.std.specs.Prelude.{◌≡◌, IfOk, OnOk, true, unwrap_or};
ghost use Rattle.std.specs.Io.KnownBytes.{Appends};
ghost use Rattle.device_texts.specs.AnswerText.{map_refusal_text};
ghost use Rattle.device_texts.specs.DeviceFile.{IsDeviceFile};
ghost use Rattle.creating.specs.NewDeviceEnd.{AnswersNewDevice, AreSame, IsAsked};
ghost use Rattle.sector_map.specs.Making.{HasSizes};

use crate::map_text::map_text;
use crate::telling::tell;
use command_line::NewDevice;
use device_texts::{DeviceFault, DeviceFile, map_refusal_text};
use host::{Answer, Refusal};
use manifest::{Identity, class_id, vendor_id};
use sector_map::{MapError, SectorMap};
use std::alloc::{AllocError, Global};
use std::io::Write;

/// The number of boots of a trial if the arguments don't give one.
const USUAL_TRIAL_BOOTS: u8 = 1;

/// The note on a vendor without a name.
const NO_VENDOR: &str = "note: `--vendor` is empty: the vendor ID is made from a domain name, and \
     each device without one has the same\n";

/// Writes a device file to `out`, and then the parts of the device's flash to `err`, after a note if
/// the vendor's name is empty. If the sizes make no map, writes the reason to `out` instead.
///
/// Both texts are made in memory of `alloc` before the first is written. The device file is read
/// back before it is written. `out` is flushed before anything is written to `err`.
///
/// # Errors
/// `NoMemory` if memory runs out. `CannotWrite` if a write to `out` or `err` fails.
pub fn run_make_device<O: Write, E: Write>(
    alloc: Global,
    asked: &NewDevice<'_>,
    out: &mut O,
    err: &mut E,
) -> Result<Answer, Refusal>
    ensures { IfOk result (λ answer.
        AnswersNewDevice answer asked.now (O.contents out.old) (O.contents out.new)) }
{
    let map = match SectorMap::new(asked.sector_size, asked.sectors.as_slice()) {
        Ok(map) => map,
        Err(fault) => {
            refuse_sizes(alloc, fault, out)?;
            return Ok(Answer::Refused);
        }
    };
    let device = device_of(asked, map);
    let Ok(text) = device_text(alloc, asked, &device.identity) else {
        return Err(Refusal::NoMemory);
    };
    let Ok(parts) = map_text(alloc, &map) else {
        return Err(Refusal::NoMemory);
    };
    expect_file(alloc, text.as_bytes(), &device)?;
    tell(text.as_bytes(), out)?;
    if asked.vendor.is_empty() {
        tell(NO_VENDOR.as_bytes(), err)?;
    }
    tell(parts.as_bytes(), err)?;
    Ok(Answer::Done)
}

/// Writes to `out` why these sizes make no map.
fn refuse_sizes<O: Write>(alloc: Global, fault: MapError, out: &mut O) -> Result<(), Refusal>
    ensures { OnOk result (Appends (O.contents out.old) (O.contents out.new)
        (map_refusal_text fault)) }
{
    let Ok(text) = map_refusal_text(alloc, fault) else {
        return Err(Refusal::NoMemory);
    };
    tell(text.as_bytes(), out)
}

/// The device of the arguments, whose sizes make this map.
fn device_of(asked: &NewDevice<'_>, map: SectorMap) -> DeviceFile
    requires { HasSizes asked.now.sector_size asked.now.sectors.items map }
    ensures { IsAsked asked.now result }
{
    let vendor = vendor_id(asked.vendor);
    DeviceFile {
        map,
        identity: Identity {
            vendor,
            class: class_id(vendor, asked.class),
            images: map.images,
        },
        trial_boots: asked.trial_boots.unwrap_or(USUAL_TRIAL_BOOTS),
    }
}

/// The text of the device file for the arguments.
fn device_text(
    alloc: Global,
    asked: &NewDevice<'_>,
    identity: &Identity,
) -> Result<String, AllocError> {
    let sector_size = asked.sector_size;
    let (vendor, class) = (identity.vendor, identity.class);
    let mut text = format!(in alloc; "{{\"sector\":{sector_size},\"sectors\":")?;
    write_list(&mut text, asked.sectors.as_slice())?;
    write!(
        text,
        ",\n \"vendor-id\":\"{vendor}\",\n \"class-id\":\"{class}\""
    )?;
    if let Some(boots) = asked.trial_boots {
        write!(text, ",\n \"trial-boots\":{boots}")?;
    }
    writeln!(text, "}}")?;
    Ok(text)
}

/// Adds the JSON list of numbers to a text.
fn write_list(text: &mut String, numbers: &[u32]) -> Result<(), AllocError> {
    let mut before = '[';
    for number in numbers {
        write!(text, "{before}{number}")?;
        before = ',';
    }
    write!(text, "]")
}

/// Refuses a text that isn't the device file of this device.
///
/// It refuses only if memory runs out, since the text was made from this device. How the text is
/// made isn't proved. It is proved that the text reads back as the device.
fn expect_file(alloc: Global, text: &[u8], device: &DeviceFile) -> Result<(), Refusal>
    ensures { OnOk result (IsDeviceFile text.now device.now) }
{
    match DeviceFile::read(alloc, text) {
        Ok(read) if is_same(&read, device) => Ok(()),
        Err(DeviceFault::NoMemory) => Err(Refusal::NoMemory),
        _ => Err(Refusal::NotMade),
    }
}

/// Whether two devices have the same map, identity and boots of a trial.
fn is_same(one: &DeviceFile, other: &DeviceFile) -> bool
    ensures { result ≡ true → AreSame one.now other.now }
{
    if one.map == other.map {
        if one.identity == other.identity {
            return one.trial_boots == other.trial_boots;
        }
    }
    false
}
