//! What a collection keeps: the records below its horizon that those from there on refer to, and what they refer to. Who writes the files of a
//! collection and who compares them find the same.
#![tactic(auto)]

ghost use Rattle.std.specs.Prelude.{◌≡◌, ℕ, ◌<◌, ◌≤◌, map, IsSome};
ghost use Rattle.ip_ground.specs.Contents.{Image};
ghost use Rattle.ip_spec.specs.TreeAt.{present};
ghost use Rattle.ip_image.specs.Slot.{layout_of};
ghost use Rattle.ip_image.specs.Standing.{Standing};
ghost use Rattle.ip_image.specs.Virtual.{run_of};
ghost use Rattle.ip_space.specs.SpaceView.{SpaceView};
ghost use Rattle.ip_keep.specs.Keeping.{KeepsAll, FewLooks};
ghost use Rattle.ip_keep.specs.Whole.{AreRecords};

mod enter;
mod fault;
mod keep;
mod read;
mod runs;

pub use fault::KeepFault;
pub use ip_image::run::Run;
pub use keep::Keep;
pub use runs::Runs;

/// Where nothing is left to be looked at, what was kept is the least set, each record of it once, ascending. There are no more looks than records
/// from the horizon on, and in that set.
pub fn kept_set()
    ensures keeps_all { KeepsAll }
    ensures few_looks { FewLooks }
{}

/// An image that stands has the records of its live slot whole.
pub fn standing_images()
    ensures { (image : Image) (standing : Standing image) (space : SpaceView) (h : ℕ) → space.layout ≡ layout_of standing.slot → space.runs ≡ map run_of standing.rows →
        standing.slot.horizon ≤ h → h < standing.slot.end → IsSome (present standing.records h) → AreRecords image space h standing.records }
{}
