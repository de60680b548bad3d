//! The result of a call that C reads beside the returned number.

ghost use Rattle.std.specs.Prelude.{◌≡◌, ◌<◌, ◌≤◌, ◌^◌, length};
ghost use Rattle.c_interface.specs.CallResult.{AreDependencyRows, AreRefusalRows, AreVersionRows};
ghost use Rattle.c_interface.specs.CallResult.{IsRefusalRow, IsResultOfReport};
ghost use Rattle.c_interface.specs.CallResult.{check_of, detail_of, dependencies_of};
ghost use Rattle.c_interface.specs.CallResult.{reason_number};
ghost use Rattle.c_interface.specs.CallResult.{taken_mask, fault_result, dependency_row};
ghost use Rattle.c_interface.specs.CallResult.{no_result, version_row};
ghost use Rattle.machine.specs.Codes.{code_of};

use crate::texts::Lengths;
use arrayvec::ArrayVec;
use common::limits::{MOST_ALTERNATIVES, MOST_IMAGES};
use machine::{Fault, UploadError};
use reports::{Reason, Refusal, Report, ReportedImage};
use version_order::{Dependency, Version};

/// A version, `major.minor.revision+build` (MCUboot's `struct image_version`).
#[repr(C)]
#[derive(Clone, Copy)]
pub struct VersionRow {
    /// `iv_major`.
    pub major: u8,
    /// `iv_minor`.
    pub minor: u8,
    /// `iv_revision`.
    pub revision: u16,
    /// `iv_build_num`.
    pub build: u32,
}

/// A dependency: an image and its lowest version.
#[repr(C)]
#[derive(Clone, Copy)]
pub struct DependencyRow {
    /// The number of the image, counted from 0.
    pub image: u32,
    /// The lowest version that meets the dependency.
    pub minimum: VersionRow,
}

/// A refused request and the reason.
#[repr(C)]
#[derive(Clone, Copy)]
pub struct RefusalRow {
    /// The number of the image whose request is refused.
    pub image: u32,
    /// The reason: 1 its bytes are no intact image, 2 its version is below the running one, 3 its
    /// security counter is below the floor, 4 it needs an image that the device lacks, 5 what it
    /// needs isn't available, 6 none of the alternatives that it needs is available.
    pub reason: u32,
    /// The number of entries in `dependencies`: 1 for reasons 4 and 5, up to 4 for reason 6, else
    /// 0.
    pub count: u32,
    /// What it needs. For reason 4 only the image counts.
    pub dependencies: [DependencyRow; MOST_ALTERNATIVES],
}

/// The result of a call. A field that doesn't apply to the returned number is 0.
#[repr(C)]
#[derive(Clone, Copy)]
pub struct CallResult {
    /// The number of writes that the call made: programs and erases. Exactly these writes, torn as
    /// the caller's rows say, change the flash's old bytes into the new ones. If a write is cut, it
    /// is the last one.
    pub writes: u64,
    /// The number of bytes of the journal that record these writes, from its first byte on. 0 for a
    /// call without a journal.
    pub journal_length: u64,
    /// Refused: the number of the reason, 1 to 10.
    pub fault: u32,
    /// For reason 5 the damaged image; for 7, 9 and 10 the number of the underlying error.
    pub detail: u32,
    /// If an upload isn't an intact image, the first check that fails.
    pub check: u32,
    /// Bit i for image i: the set that a boot takes, reverts, or tries again.
    pub set: u32,
    /// The number of boots that are left to a set that is tried again.
    pub left: u32,
    /// 1 if a boot takes a set permanently, else 0.
    pub permanent: u32,
    /// Of a boot that decided: the number of images.
    pub images: u32,
    /// Of a boot that decided: the number of refused requests.
    pub refusals: u32,
    /// The length of the table's text in bytes, 0 if it was longer than its buffer.
    pub table_length: u32,
    /// The length of the report's text in bytes, 0 if it was longer than its buffer.
    pub report_length: u32,
    /// The running version of each image.
    pub versions: [VersionRow; MOST_IMAGES],
    /// The refused requests, in the order of the report.
    pub refused: [RefusalRow; MOST_IMAGES],
}

/// Version 0.
pub(crate) const NO_VERSION: VersionRow = VersionRow {
    major: 0,
    minor: 0,
    revision: 0,
    build: 0,
};

/// No dependency.
pub(crate) const NO_DEPENDENCY: DependencyRow = DependencyRow {
    image: 0,
    minimum: NO_VERSION,
};

/// No refusal.
const NO_REFUSAL: RefusalRow = RefusalRow {
    image: 0,
    reason: 0,
    count: 0,
    dependencies: [NO_DEPENDENCY; MOST_ALTERNATIVES],
};

/// The result if no call was made.
pub(crate) const NO_RESULT: CallResult = CallResult {
    writes: 0,
    journal_length: 0,
    fault: 0,
    detail: 0,
    check: 0,
    set: 0,
    left: 0,
    permanent: 0,
    images: 0,
    refusals: 0,
    table_length: 0,
    report_length: 0,
    versions: [NO_VERSION; MOST_IMAGES],
    refused: [NO_REFUSAL; MOST_IMAGES],
};

/// A version as C has it.
pub(crate) fn version_row(version: Version) -> VersionRow
    ensures { result ≡ version_row version }
{
    VersionRow {
        major: version.major,
        minor: version.minor,
        revision: version.revision,
        build: version.build,
    }
}

/// A dependency as C has it.
pub(crate) fn dependency_row(dependency: Dependency) -> DependencyRow
    ensures { result ≡ dependency_row dependency }
{
    DependencyRow {
        image: u32::from(dependency.image),
        minimum: version_row(dependency.minimum),
    }
}

/// Dependencies as C has them.
pub(crate) fn dependency_rows<const N: usize>(dependencies: &[Dependency]) -> [DependencyRow; N]
    requires { length dependencies.now ≤ N }
    ensures { AreDependencyRows dependencies.now result }
{
    let mut rows = [NO_DEPENDENCY; N];
    for i in 0..dependencies.len() {
        rows[i] = dependency_row(dependencies[i]);
    }
    rows
}

/// The number of a reason.
fn reason_number(reason: &Reason) -> u32
    ensures { result ≡ reason_number reason.now }
{
    match reason {
        Reason::Damaged => 1,
        Reason::Older => 2,
        Reason::Counter => 3,
        Reason::NoSuchImage(_) => 4,
        Reason::Needs(_, _) => 5,
        Reason::NeedsOne(_) => 6,
    }
}

/// The images that a reason names.
fn dependencies_of(reason: &Reason) -> ArrayVec<Dependency, MOST_ALTERNATIVES>
    ensures { result.items ≡ dependencies_of reason.now }
{
    let mut dependencies = ArrayVec::new();
    match reason {
        Reason::NoSuchImage(image) => dependencies.push(Dependency {
            image: *image,
            minimum: Version {
                major: 0,
                minor: 0,
                revision: 0,
                build: 0,
            },
        }),
        Reason::Needs(image, minimum) => dependencies.push(Dependency {
            image: *image,
            minimum: *minimum,
        }),
        Reason::NeedsOne(group) => return group.copied().alternatives,
        _ => {}
    }
    dependencies
}

/// A refusal as C has it.
fn refusal_row(refusal: &Refusal) -> RefusalRow
    ensures { IsRefusalRow refusal.now result }
{
    let dependencies = dependencies_of(&refusal.reason);
    RefusalRow {
        image: u32::from(refusal.image),
        reason: reason_number(&refusal.reason),
        count: dependencies.len() as u32,
        dependencies: dependency_rows(dependencies.as_slice()),
    }
}

/// The versions of a report, as C has them.
fn version_rows(images: &[ReportedImage]) -> [VersionRow; MOST_IMAGES]
    requires { length images.now ≤ MOST_IMAGES }
    ensures { AreVersionRows images.now result }
{
    let mut rows = [NO_VERSION; MOST_IMAGES];
    for i in 0..images.len() {
        rows[i] = version_row(images[i].version);
    }
    rows
}

/// The refusals of a report, as C has them.
fn refusal_rows(refusals: &[Refusal]) -> [RefusalRow; MOST_IMAGES]
    requires { length refusals.now ≤ MOST_IMAGES }
    ensures { AreRefusalRows refusals.now result }
{
    let mut rows = [NO_REFUSAL; MOST_IMAGES];
    for i in 0..refusals.len() {
        rows[i] = refusal_row(&refusals[i]);
    }
    rows
}

/// The number whose bit j says whether the request of the j-th of these images is taken.
fn taken_mask(images: &[ReportedImage]) -> u32
    requires { length images.now ≤ MOST_IMAGES }
    ensures mask { result ≡ taken_mask images.now }
    ensures fits { result < 2 ^ length images.now }
{
    match images {
        [] => 0,
        [image, others @ ..] => u32::from(image.is_taken) + 2 * taken_mask(others),
    }
}

/// The number of the error that caused a fault, or of the image that it names.
fn detail_of(fault: Fault) -> u32
    ensures { result ≡ detail_of fault }
{
    match fault {
        Fault::RunningDamaged(image) => u32::from(image),
        Fault::Flash(error) => u32::from(error.code()),
        Fault::Manifest(error) => u32::from(error.code()),
        Fault::Upload(error) => u32::from(error.code()),
        _ => 0,
    }
}

/// The number of the first failed check of an image, if that is the fault.
fn check_of(fault: Fault) -> u32
    ensures { result ≡ check_of fault }
{
    match fault {
        Fault::Upload(UploadError::NotAnImage(check)) => u32::from(check.code()),
        _ => 0,
    }
}

/// The result of a boot that decided.
pub(crate) fn report_result(
    report: &Report,
    permanent: bool,
    writes: u64,
    lengths: Lengths,
) -> CallResult
    ensures fields { IsResultOfReport report.now permanent result }
    ensures writes { result.writes ≡ writes }
    ensures journal { result.journal_length ≡ 0 }
    ensures table { result.table_length ≡ lengths.table }
    ensures report { result.report_length ≡ lengths.report }
{
    CallResult {
        writes,
        set: taken_mask(report.images.as_slice()),
        permanent: u32::from(permanent),
        images: report.images.len() as u32,
        refusals: report.refusals.len() as u32,
        table_length: lengths.table,
        report_length: lengths.report,
        versions: version_rows(report.images.as_slice()),
        refused: refusal_rows(report.refusals.as_slice()),
        ..NO_RESULT
    }
}

/// Writes why a call is refused.
pub(crate) fn put_fault(fault: Fault, call_result: &mut CallResult)
    ensures { call_result.new ≡ record call_result.old {
      fault = code_of fault;
      detail = detail_of fault;
      check = check_of fault;
    } }
{
    call_result.fault = u32::from(fault.code());
    call_result.detail = detail_of(fault);
    call_result.check = check_of(fault);
}

/// The result of a refused call.
pub(crate) fn fault_result(fault: Fault, writes: u64) -> CallResult
    ensures { result ≡ fault_result fault writes 0 }
{
    let mut call_result = CallResult {
        writes,
        ..NO_RESULT
    };
    put_fault(fault, &mut call_result);
    call_result
}

/// Writes the result if no call was made. A temporary one takes stack only here.
#[inline(never)]
pub(crate) fn put_no_result(call_result: &mut CallResult)
    ensures { call_result.new ≡ no_result }
{
    *call_result = NO_RESULT;
}
