//! A copy from the front of one run of bytes to the front of another.
ghost use Rattle.std.specs.Prelude.{◌≡◌, length, min, take};

/// Copies what fits to the front of the buffer, and says how many bytes that are.
pub(crate) fn copy_front(from: &[u8], buf: &mut [u8]) -> usize
    ensures count { result ≡ min (length from.now) (length buf.old) }
    ensures bytes { take result buf.new ≡ take result from.now }
{
    let count = from.len().min(buf.len());
    buf[..count].copy_from_slice(&from[..count]);
    count
}
