// Bytes behind those of a target, in room that was made before.
ghost use Rattle.std.specs.Prelude.{◌≡◌, ◌≤◌, ◌<◌, ◌+◌, ◌++◌, ◌∷◌, [], length, vec_len, vec_capacity};

/// Appends bytes, in room that was made before.
pub(crate) fn put(dst: &mut Vec<u8>, bytes: &[u8])
    requires { vec_len dst.old + length bytes.now ≤ vec_capacity dst.old }
    ensures items { dst.new.items ≡ dst.old.items ++ bytes.now }
    ensures len { vec_len dst.new ≡ vec_len dst.old + length bytes.now }
    ensures capacity { vec_capacity dst.old ≤ vec_capacity dst.new }
{
    dst.extend_from_slice(bytes).unwrap();
}

/// Appends a byte, in room that was made before.
pub(crate) fn put_byte(dst: &mut Vec<u8>, byte: u8)
    requires { vec_len dst.old < vec_capacity dst.old }
    ensures items { dst.new.items ≡ dst.old.items ++ byte ∷ [] }
    ensures len { vec_len dst.new ≡ vec_len dst.old + 1 }
    ensures capacity { vec_capacity dst.old ≤ vec_capacity dst.new }
{
    dst.push_reserved(byte);
}
