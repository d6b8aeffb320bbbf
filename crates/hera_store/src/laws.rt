//! Laws of the definitions.
ghost use Rattle.std.specs.Prelude.{◌≡◌, ℕ, List};
ghost use Rattle.hera_volume.specs.declared.file_id.FileId.{FileId};
ghost use Rattle.hera_store.specs.Databases.{FilesFound, IsFound};

/// Files hold no database, or are damaged at one place, or hold one database: never two of these.
pub fn one_thing_is_found()
    ensures { (files : FileId → List ℕ) (found : FilesFound) (other : FilesFound) → IsFound files found → IsFound files other → found ≡ other }
{}
