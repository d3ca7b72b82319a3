// Zeros.
ghost use Rattle.std.specs.Prelude.{length};
ghost use Rattle.container_pages.specs.Inner.{Within, Filled};

/// Zeros from one place up to another. The caller guarantees the room.
pub fn put_zeros(out: &mut [u8], from: usize, to: usize)
    requires { Within from to (length out.old) }
    ensures { Filled (λ _. 0) out.old from to out.new }
{
    out[from..to].fill(0);
}
