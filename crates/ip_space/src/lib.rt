//! Records by reference, in a store's chunk files and its live prefix: whoever reads a record asks for the one at an offset.
#![tactic(auto)]

ghost use Rattle.std.specs.Prelude.{◌≡◌, ◌≢◌, ℕ, ◌+◌, ◌<◌, ◌≤◌, List, [], map, slice_get, Contains, Option, Some, IsSome, Result};
ghost use Rattle.ip_ground.specs.Contents.{Image};
ghost use Rattle.ip_spec.specs.declared.record.Record.{Record};
ghost use Rattle.ip_spec.specs.declared.record.Ref.{Ref};
ghost use Rattle.ip_spec.specs.TreeAt.{present};
ghost use Rattle.ip_spec.specs.Path.{Bytes};
ghost use Rattle.ip_ground.specs.declared.names.FileName.{FileName};
ghost use Rattle.ip_ground.specs.declared.names.FileName.TheVariants.{Control};
ghost use Rattle.ip_image.specs.declared.layout.Layout.{Layout};
ghost use Rattle.ip_image.specs.declared.run.Row.{Row};
ghost use Rattle.ip_image.specs.declared.run.Run.{Run};
ghost use Rattle.ip_image.specs.declared.slot.Slot.{Slot};
ghost use Rattle.ip_image.specs.Slot.{IsSlot, IsLive, layout_of};
ghost use Rattle.ip_image.specs.Virtual.{run_of, lies_at};
ghost use Rattle.ip_image.specs.Standing.{Standing, Generation, DamagedAt, stretches};
ghost use Rattle.ip_space.specs.Pair.{IsBadPair};
ghost use Rattle.ip_space.specs.SpaceView.{SpaceView, records_in, stretches_of, grown, SameBelow, AreCurrent};
ghost use Rattle.ip_image.specs.Pending.{SameSpace};
ghost use Rattle.ip_space.specs.Fetching.{Fetches, Meets, IsFetched};
ghost use Rattle.ip_space.specs.ScanView.{ScanView};
ghost use Rattle.ip_space.specs.Scanning.{Finds, Moves, RunsTo, IsWalked};
ghost use Rattle.ip_space.specs.declared.fault.FetchFault.{FetchFault};

mod ahead;
mod cache;
mod copied;
mod fault;
mod live;
mod noting;
mod scan;
mod source;
mod space;

pub use fault::{FetchFault, SpaceFault};
pub use ip_image::layout::Layout;
pub use ip_image::run::Run;
pub use scan::Scan;
pub use space::Space;

/// In an image that stands, the space of the live slot's layout and of the live mapping's runs has each of its records at its offset,
/// and within each run, and from the horizon on, they lie end to end. Where no generation is live there are no runs.
pub fn standing_records()
    ensures records { (image : Image) (standing : Standing image) (space : SpaceView) → space.layout ≡ layout_of standing.slot → space.runs ≡ map run_of standing.rows →
        (at : ℕ) (r : Record) → present standing.records at ≡ Some r → records_in image space at ≡ Some r }
    ensures runs { (image : Image) (standing : Standing image) (space : SpaceView) → space.layout ≡ layout_of standing.slot → space.runs ≡ map run_of standing.rows →
        RunsTo (records_in image space) standing.slot.horizon standing.slot.end }
    ensures stretches { (image : Image) (standing : Standing image) (space : SpaceView) → space.layout ≡ layout_of standing.slot → space.runs ≡ map run_of standing.rows →
        (run : Run) → Contains (stretches (layout_of standing.slot) standing.rows) run → RunsTo (records_in image space) run.at (run.at + run.length) }
    ensures none_live { (image : Image) (standing : Standing image) → standing.slot.live ≡ 0 → map run_of standing.rows ≡ [] }
{}

/// Where the live mapping or prefix is not the layout's, the image is damaged there. It has one list of rows, and none where no generation is
/// live.
pub fn live_pair()
    ensures damaged { (image : Image) (control : Bytes) (index : ℕ) (s : Slot) (file : FileName) (at : ℕ) → image Control ≡ Some control → IsLive control index s →
        s.live ≢ 0 → IsBadPair image (layout_of s) file at → DamagedAt image file at }
    ensures one { (image : Image) (s : Layout) (rows others : List Row) → Generation image s rows → Generation image s others → rows ≡ others }
    ensures none { (image : Image) (s : Slot) → IsSlot s → s.live ≡ 0 → Generation image (layout_of s) [] }
{}

/// Each offset of a stretch lies in some file.
pub fn stretches_lie()
    ensures { (space : SpaceView) (number at : ℕ) (run : Run) → slice_get (stretches_of space) number ≡ Some run → run.at ≤ at → at < run.at + run.length →
        IsSome (lies_at space.layout space.runs at) }
{}

/// A record that stands somewhere does so while the bytes below the end stay, also where the end is raised.
pub fn records_stay()
    ensures { (old new : Image) (space : SpaceView) (end : ℕ) → space.layout.end ≤ end → SameBelow space old new →
        (at : ℕ) (r : Record) → records_in old space at ≡ Some r → records_in new (grown space end) at ≡ Some r }
{}

/// What was kept stays current where the bytes of the space are what they were, also where the end is raised behind more.
pub fn kept_stays()
    ensures below { (s : Slot) (old new : Image) (space : SpaceView) → space.layout ≡ layout_of s → (s.live ≡ 0 → space.runs ≡ []) → SameSpace s old new → SameBelow space old new }
    ensures current { (old new : Image) (space : SpaceView) (end : ℕ) → space.layout.end ≤ end → SameBelow space old new →
        AreCurrent (records_in old space) space.kept → AreCurrent (records_in new (grown space end)) space.kept }
{}

/// Where the record of a reference stands, fetching it gives that record, faults of the ground and want of memory aside. Where records
/// lie end to end up to the end of a walk, it goes through all of them.
pub fn present_records()
    ensures fetched { (records : ℕ → Option Record) (r : Ref) (found : Record) (result : Result Record FetchFault) →
        records r.at ≡ Some found → Meets r found → Fetches records r result → IsFetched found result }
    ensures walked { (records : ℕ → Option Record) (old new : ScanView) (result : Result (Option (ℕ × Record)) FetchFault) →
        RunsTo records old.next old.to → Moves old new result → Finds records old.next result → IsWalked records old new result }
{}
