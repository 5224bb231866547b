ghost use Rattle.std.specs.Prelude.{◌≡◌, IfOk, IsTrue, is_some};
ghost use Rattle.node_resolve.specs.Looking.{LookMeaning, LooksAt, moment};
ghost use Rattle.node_resolve.specs.Manifests.{AreBytes};
ghost use Rattle.node_resolve.specs.Present.{present};

pub use pk_base::ReadFail as LookFail;
use pk_base::{Files, Path};
use pk_types::Text;

/// What a look at a manifest's path found.
#[derive(Drop)]
pub enum Bytes {
    Absent,
    Longer,
    Here(Text),
}

/// Looks at the paths of a tree. What it keeps it tells without asking the files again.
pub trait Look<F: Files> {
    /// What it was asked for, and what it keeps.
    ghost means: { Self → LookMeaning };

    /// What it keeps is true of the files.
    ghost fits: { Self → F → Type 0 };

    /// Whether a file stands at the path.
    fn has(&mut self, files: &mut F, path: &Path) -> Result<bool, LookFail>
        requires { fits self.old files.old }
        ensures fits { fits self.new files.new }
        ensures has { IfOk result (λ has. IsTrue ((F.means files.old).told)
            → has ≡ is_some (present ((F.means files.old).tree) path.now)) }
        ensures looks { LooksAt path.now result (moment (F.means files.old) (means self.old))
            (moment (F.means files.new) (means self.new)) };

    /// The bytes of the file at the path, up to the limit of a file.
    fn manifest_bytes(&mut self, files: &mut F, path: &Path) -> Result<Bytes, LookFail>
        requires { fits self.old files.old }
        ensures fits { fits self.new files.new }
        ensures bytes { IfOk result (λ bytes. IsTrue ((F.means files.old).told)
            → AreBytes (present ((F.means files.old).tree) path.now) bytes) }
        ensures looks { LooksAt path.now result (moment (F.means files.old) (means self.old))
            (moment (F.means files.new) (means self.new)) };
}
