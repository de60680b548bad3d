//! Laws of the summaries of fleets.

ghost use Rattle.std.specs.List.{AllZip, flat_map};
ghost use Rattle.std.specs.Prelude.{◌≡◌, List};
ghost use Rattle.inspecting.specs.Key.{key_text};
ghost use Rattle.inspecting.specs.KeySaid.{FitsKey, said_by};
ghost use Rattle.inspecting.specs.Plan.{Planned};
ghost use Rattle.inspecting.specs.Row.{Row};
ghost use Rattle.inspecting.specs.RowKey.{row_key_of};
ghost use Rattle.inspecting.specs.Summary.{IsSum, IsSummary};
ghost use Rattle.inspecting.specs.declared.fleet.key.Key.{Key};

/// States that the sum of the summaries of parts of a fleet is the summary of all their devices, in
/// the order of the parts.
///
/// The function does nothing: its contract is the law.
#[tactic(auto, using(crate::proofs::MergingLaws::sum_of_summaries))]
pub fn sums_are_summaries()
    ensures { (plans : List (List Planned)) (parts : List (List Row)) (rows : List Row)
        → AllZip IsSummary plans parts → IsSum parts rows
        → IsSummary (flat_map (λ plan. plan) plans) rows }
{}

/// States that the text of a key that a device has is read back as what the key says.
///
/// The function does nothing: its contract is the law.
#[tactic(auto, using(crate::proofs::KeysReadBack::key_read))]
pub fn keys_are_read_back()
    ensures { (key : Key) → FitsKey key → row_key_of (key_text key) ≡ said_by key }
{}
