//! Writing bytes over those that lie in a place.
ghost use Rattle.std.specs.Prelude.{◌≡◌, ◌+◌, ◌≤◌, length, take, ◌++◌};

/// Writes bytes over those from `start` on. There is room for them.
#[inline(always)]
pub fn write_at(into: &mut [u8], start: usize, bytes: &[u8])
    requires { start + length bytes.now ≤ length into.old }
    ensures written { take (start + length bytes.now) into.new ≡ take start into.old ++ bytes.now }
    ensures len { length into.new ≡ length into.old }
{
    into[start..start + bytes.len()].copy_from_slice(bytes);
}
