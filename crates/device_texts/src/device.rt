//! Reads device files.

ghost use Rattle.std.specs.Prelude.{◌≡◌, ◌↔◌, ℕ, List, IfErr, IfNone, IfOk, IfSome, IsTrue, map};
ghost use Rattle.std.specs.List.{AllZip};
ghost use Rattle.serde_json.specs.View.{view};
ghost use Rattle.device_texts.specs.DeviceFile.{HasDeviceKeys, IsDeviceFault, IsDeviceFile, IsNumber};
ghost use Rattle.device_texts.specs.DeviceFile.{IsReadingFault, IsTrialBoots, Spells};
ghost use Rattle.device_texts.specs.declared.device.DeviceFields.{DeviceFields};

use common::limits::MOST_TRIAL_BOOTS;
use manifest::json::{array, has_names, json_of, number, number_of, uuid};
use manifest::{Identity, ManifestError};
use sector_map::{MapError, SectorMap};
use serde_json::Value;
use std::alloc::Global;
use thiserror::Error;
use uuid::Uuid;

/// The number of boots of a trial if the file doesn't give one.
const USUAL_TRIAL_BOOTS: u8 = 1;

/// The keys of a device file, in the order of their bytes.
const KEYS: [&str; 4] = ["class-id", "sector", "sectors", "vendor-id"];

/// The keys of a device file that also has the optional key.
const KEYS_WITH_TRIAL_BOOTS: [&str; 5] = [
    "class-id",
    "sector",
    "sectors",
    "trial-boots",
    "vendor-id",
];

/// The fields of a device file.
#[derive(Drop)]
pub struct DeviceFields {
    /// The length of a sector in bytes.
    pub sector_size: u32,
    /// The number of sectors of each slot of an image, an entry for each image.
    pub sectors: Vec<u32>,
    /// The vendor of the device.
    pub vendor: Uuid,
    /// The class of the device, among those of its vendor.
    pub class: Uuid,
    /// The number of boots of a trial, 1 to [`MOST_TRIAL_BOOTS`].
    pub trial_boots: u8,
}

/// The device of a device file.
#[derive(Clone, Copy)]
pub struct DeviceFile {
    /// The map of its flash.
    pub map: SectorMap,
    /// Its vendor, its class and its number of images, which a manifest has to match.
    pub identity: Identity,
    /// The number of boots of a trial, 1 to [`MOST_TRIAL_BOOTS`].
    pub trial_boots: u8,
}

/// Why bytes aren't a device file.
#[derive(Clone, Copy, Debug, Error)]
pub enum DeviceFault {
    /// The bytes aren't the JSON text of an object with exactly the keys of a device file, or a
    /// value isn't valid.
    #[error("no device file")]
    Malformed,
    /// The sizes of the device file make no map. The first check that they fail.
    #[error("{0}")]
    Map(MapError),
    /// Memory ran out.
    #[error("no memory for the device file")]
    NoMemory,
}

impl DeviceFile {
    /// Reads a device file.
    ///
    /// `bytes` are the complete file, of any length: a JSON text (RFC 8259) of one object with
    /// exactly the keys that docs/FORMATS.md lists. Its value is in memory of `alloc` while it is
    /// read. The result doesn't allocate.
    ///
    /// # Errors
    /// `Malformed` if the value of the text isn't such an object. `Map` if its sizes make no map,
    /// with the first check that fails. `NoMemory` if memory is refused.
    ///
    /// # Examples
    ///
    /// ```text
    /// // Two images of two sectors each. Without `trial-boots` a trial has one boot.
    /// let text = b"{\"sector\": 512, \"sectors\": [2, 2], \
    ///     \"vendor-id\": \"886313e1-3b8a-5372-9b90-0c9aee199e5d\", \
    ///     \"class-id\": \"74b0b1ed-70fe-5a24-9102-6a41c2172c6d\"}";
    /// let device = DeviceFile::read(rt.alloc(), text)?;
    /// assert!(rt; device.map.images == 2 && device.trial_boots == 1);
    /// ```
    pub fn read(alloc: Global, bytes: &[u8]) -> Result<DeviceFile, DeviceFault>
        ensures read { IfOk result (IsDeviceFile bytes.now) }
        ensures fault { IfErr result (IsDeviceFault bytes.now) }
    {
        let value = match json_of(alloc, bytes) {
            Ok(value) => value,
            Err(ManifestError::NotJson) => return Err(DeviceFault::Malformed),
            Err(_) => return Err(DeviceFault::NoMemory),
        };
        let fields = fields_of(alloc, &value)?;
        match SectorMap::new(fields.sector_size, fields.sectors.as_slice()) {
            Ok(map) => Ok(device_of(&fields, map)),
            Err(fault) => Err(DeviceFault::Map(fault)),
        }
    }
}

/// The device of these fields, whose sizes make this map.
fn device_of(fields: &DeviceFields, map: SectorMap) -> DeviceFile
    ensures map { result.map ≡ map }
    ensures vendor { result.identity.vendor ≡ fields.now.vendor }
    ensures class { result.identity.class ≡ fields.now.class }
    ensures images { result.identity.images ≡ result.map.images }
    ensures trial_boots { result.trial_boots ≡ fields.now.trial_boots }
{
    DeviceFile {
        map,
        identity: Identity {
            vendor: fields.vendor,
            class: fields.class,
            images: map.images,
        },
        trial_boots: fields.trial_boots,
    }
}

/// The fields of a device file, from its JSON value.
fn fields_of(alloc: Global, value: &Value) -> Result<DeviceFields, DeviceFault>
    ensures spelled { IfOk result (Spells (view value.now)) }
    ensures fault { IfErr result (IsReadingFault
        ((fields : DeviceFields) × Spells (view value.now) fields)) }
{
    if !has_keys(value) {
        return Err(DeviceFault::Malformed);
    }
    let Some(sector_size) = number(value, "sector") else {
        return Err(DeviceFault::Malformed);
    };
    let Some(values) = array(value, "sectors") else {
        return Err(DeviceFault::Malformed);
    };
    let Some(vendor) = uuid(value, "vendor-id") else {
        return Err(DeviceFault::Malformed);
    };
    let Some(class) = uuid(value, "class-id") else {
        return Err(DeviceFault::Malformed);
    };
    let Some(trial_boots) = trial_boots(value) else {
        return Err(DeviceFault::Malformed);
    };
    let sectors = numbers_of(alloc, values.as_slice())?;
    Ok(DeviceFields {
        sector_size,
        sectors,
        vendor,
        class,
        trial_boots,
    })
}

/// Whether a value is an object with the keys of a device file.
fn has_keys(value: &Value) -> bool
    ensures { IsTrue result ↔ HasDeviceKeys (view value.now) }
{
    has_names(value, KEYS.as_slice()) || has_names(value, KEYS_WITH_TRIAL_BOOTS.as_slice())
}

/// The numbers of JSON values, each below 2^32.
fn numbers_of(alloc: Global, values: &[Value]) -> Result<Vec<u32>, DeviceFault>
    ensures numbers { IfOk result
        (λ numbers. AllZip IsNumber (map view values.now) numbers.items) }
    ensures fault { IfErr result (IsReadingFault
        ((numbers : List ℕ) × AllZip IsNumber (map view values.now) numbers)) }
{
    let mut numbers = Vec::new(alloc);
    for value in values {
        let Some(number) = number_of(value) else {
            return Err(DeviceFault::Malformed);
        };
        let Ok(()) = numbers.push(number) else {
            return Err(DeviceFault::NoMemory);
        };
    }
    Ok(numbers)
}

/// The number of boots of a trial. `None` if the value isn't a number from 1 to
/// [`MOST_TRIAL_BOOTS`].
fn trial_boots(value: &Value) -> Option<u8>
    ensures found { IfSome result (IsTrialBoots (view value.now)) }
    ensures other { IfNone result ((boots : ℕ) → IsTrialBoots (view value.now) boots → ⊥) }
{
    if value.get("trial-boots").is_none() {
        return Some(USUAL_TRIAL_BOOTS);
    }
    let boots = number(value, "trial-boots")?;
    if 1 <= boots && boots <= u32::from(MOST_TRIAL_BOOTS) {
        Some(boots as u8)
    } else {
        None
    }
}
