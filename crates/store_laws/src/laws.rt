//! Laws of the definitions.
ghost use Rattle.std.specs.Prelude.{All, ℕ, List};
ghost use Rattle.hera_volume.specs.declared.file_id.FileId.{FileId};
ghost use Rattle.hera_store.specs.Databases.{FilesFound, IsFound};
ghost use Rattle.store_laws.specs.Bytes.{IsByte};

/// Whatever bytes the files have, they hold no database, or are damaged at a place, or hold a database.
pub fn every_folder_is_found()
    ensures { (files : FileId → List ℕ) → ((file : FileId) → All IsByte (files file)) → (found : FilesFound) × IsFound files found }
{}
