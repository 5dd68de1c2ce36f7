//! Appending to the undelivered changes.
ghost use Rattle.std.specs.Prelude.{◌≡◌, ◌-◌, ◌<◌, ◌≤◌, [], ◌∷◌, ◌++◌, length, take};
ghost use Rattle.circular_buffer.specs.Buffer.{buffer};

use circular_buffer::HeapCircularBuffer;

/// Appends a change, for which there is a place.
pub fn append<C: Drop>(waiting: &mut HeapCircularBuffer<C>, change: C)
    requires { length waiting.old.items < waiting.old.capacity }
    ensures { waiting.new ≡ buffer (waiting.old.items ++ change ∷ []) waiting.old.capacity }
{
    let _ = waiting.push_back(change);
}

/// Puts a change in the place of the last one.
pub fn replace_last<C: Drop>(waiting: &mut HeapCircularBuffer<C>, change: C)
    requires some { 0 < length waiting.old.items }
    requires fits { length waiting.old.items ≤ waiting.old.capacity }
    ensures { waiting.new
        ≡ buffer (take (length waiting.old.items - 1) waiting.old.items ++ change ∷ []) waiting.old.capacity }
{
    let _ = waiting.pop_back();
    append(waiting, change);
}
