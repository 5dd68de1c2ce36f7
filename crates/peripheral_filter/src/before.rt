//! What was accepted in an earlier life of a device.
ghost use Rattle.std.specs.Prelude.{◌≡◌, option_copied};
ghost use Rattle.peripheral_filter.specs.Changes.{is_changed};

/// Whether there are bytes from an earlier life, and they differ from these.
pub(crate) fn is_changed(before: Option<&[u8]>, bytes: &[u8]) -> bool
    ensures { result ≡ is_changed (option_copied before.entry) bytes.now }
{
    match before {
        None => false,
        Some(before) => before != bytes,
    }
}
