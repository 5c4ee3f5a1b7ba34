ghost use Rattle.std.specs.Prelude.{◌≡◌, ◌≤◌, ◌++◌, length, drop};
ghost use Rattle.octets.specs.Output.{Placed, Written};

use fault::WriteFault;

/// The place after `size` bytes from `at` on, where an output of `len` bytes has them.
pub fn next_place(len: usize, at: usize, size: usize) -> Result<usize, WriteFault>
    ensures { Placed len at size result }
{
    at.checked_add(size)
        .filter(|next| *next <= len)
        .ok_or(WriteFault::NoRoom)
}

/// Puts bytes at the front of `out`.
// A function of its own, since what is lent of an output is its tail, which this knows by its front alone.
fn put(bytes: &[u8], out: &mut [u8])
    requires { length bytes.now ≤ length out.old }
    ensures { out.new ≡ bytes.now ++ drop (length bytes.now) out.old }
{
    out[..bytes.len()].copy_from_slice(bytes);
}

/// Writes bytes into `out` from `at` on, and tells the next place.
pub fn write(bytes: &[u8], out: &mut [u8], at: usize) -> Result<usize, WriteFault>
    ensures { Written out.old at bytes.now out.new result }
{
    let next = next_place(out.len(), at, bytes.len())?;
    put(bytes, &mut out[at..]);
    Ok(next)
}
