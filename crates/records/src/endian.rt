// Numbers as bytes, lowest first.
ghost use Rattle.std.specs.Prelude.{◌≡◌, ◌+◌, ◌≤◌, length};
ghost use Rattle.std.proofs.lemmas.List.Edits.{sets};
ghost use Rattle.records.specs.Bytes.{low_first};

use digits::put::put_bytes;

// The four low bytes of x from a place on.
pub(crate) fn put(b: &mut [u8], at: usize, x: u64)
    requires { at + 4 ≤ length b.old }
    ensures { b.new ≡ sets b.old at (low_first 4 x) }
{
    put_bytes(b, at, &x.to_le_bytes()[..4]);
}
