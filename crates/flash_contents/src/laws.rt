//! Laws of flashes: what trailers, booted devices and new devices say of the state of a device.

ghost use Rattle.std.specs.Prelude.{◌≡◌, ◌<◌, ℕ, true, false, Some};
ghost use Rattle.common.specs.Masks.{is_member};
ghost use Rattle.trailer.specs.declared.kinds.SwapType.TheVariants.{Revert};
ghost use Rattle.machine.specs.Device.{DeviceState, Machine, Trial, Wanted};
ghost use Rattle.upload.specs.Steady.{IsSteadyAt};
ghost use Rattle.upload.specs.View.{View};
ghost use Rattle.sector_map.specs.declared.layout.SectorMap.{SectorMap};
ghost use Rattle.sector_map.specs.Map.{IsLaidOut};
ghost use Rattle.flash_contents.specs.Holding.{DeviceView, Holds, IsTrialAt};
ghost use Rattle.flash_contents.specs.Lifecycle.{HasRunning, IsJustMade, with_power};
ghost use Rattle.machine.specs.States.{asleep};
ghost use Rattle.flash_contents.specs.SwapTypes.{swap_type_at, type_of};

/// MCUboot's table of swap types shows in the trailers which trials and requests are pending.
///
/// The table is in MCUboot's design document, "Swapping". While a set is on trial, each image of
/// the set that isn't confirmed has the swap type `Revert`. While nothing is on trial, each
/// requested image has the swap type of its request: `Test` or `Perm`.
///
/// The function does nothing: its contract is the law.
pub fn trailers_tell_trials_and_requests()
    ensures trials { (w : View) (s : DeviceState) (trial : Trial) (i : ℕ) → IsTrialAt w s trial
        → is_member trial.set i ≡ true → trial.confirmed i ≡ false → swap_type_at w i ≡ Revert }
    ensures requests { (w : View) (s : DeviceState) (i : ℕ) (wanted : Wanted) → IsSteadyAt w s
        → i < s.images → s.request i ≡ Some wanted → swap_type_at w i ≡ type_of wanted.kind }
{}

/// A booted device has the images that run in its primary slots: each slot begins with the image
/// that the state of the device runs.
///
/// The function does nothing: its contract is the law.
#[tactic(auto, using(crate::proofs::Lifecycle::holder_runs))]
pub fn booted_devices_run_their_primary_slots()
    ensures { (map : SectorMap) (device : DeviceView) (m : Machine) → Holds map device m
        → m.is_booted ≡ true → HasRunning map device.flash m.kept }
{}

/// A flash keeps the state of its device. If a device ends, by a power cut or otherwise, a device
/// that is made anew over its flash holds the same state. The new device isn't booted and has no
/// uploads.
///
/// The function does nothing: its contract is the law.
pub fn flashes_keep_the_states_of_their_devices()
    ensures { (map : SectorMap) (old new : DeviceView) (m : Machine) → IsLaidOut map old.flash
        → Holds map old m → IsJustMade (with_power old.flash) new → Holds map new (asleep m.kept) }
{}
