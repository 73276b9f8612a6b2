//! What holds of manifests themselves.

ghost use Rattle.hg_store.specs.Rows.{AreReadBack};

/// Rows that ascend by path are read back by `hg_manifest` from the text that is stored for them.
pub fn what_is_written_is_read()
    ensures { AreReadBack }
{}
