// Which folders a ground was asked for. Proofs alone read it: it takes no memory, and noting one does nothing.
ghost use Rattle.std.specs.Prelude.{◌≡◌, ℕ, List, [], ◌∷◌, ◌++◌};
ghost use Rattle.std.specs.Borrow.{ftrue};

use std::marker::Model;

/// Each folder that a ground was asked for by `attach`, in order, the ones that it could not bind too. For those who
/// write a ground: a value has no bytes, so it costs nothing and never fails.
#[derive(Drop)]
pub struct AskedFolders {
    pub ghost names: { List (List ℕ) },
}

impl Model for AskedFolders {
    ghost also_owns = { λ _. ftrue };
}

/// A folder's name, as `then` is told of it.
#[derive(Clone, Copy, Drop)]
pub struct FolderName<'a>(pub &'a str);

impl AskedFolders {
    /// None yet.
    pub fn new() -> AskedFolders
        ensures { result.names ≡ [] }
    {
        AskedFolders {}
    }

    /// These, and then this one.
    pub fn then(&self, _name: &FolderName<'_>) -> AskedFolders
        ensures { result.names ≡ self.now.names ++ _name.now.0.now ∷ [] }
    {
        AskedFolders {}
    }
}
