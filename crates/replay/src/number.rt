// The numbers of a record, little-endian, of two, four and eight bytes.
ghost use Rattle.std.specs.Prelude.{◌+◌, ◌≤◌, length};

pub fn half_at(bytes: &[u8], at: usize) -> usize
    requires { at + 2 ≤ length bytes.now }
{
    usize::from(u16::from_le_bytes(array_at(bytes, at)))
}

pub fn word_at(bytes: &[u8], at: usize) -> u32
    requires { at + 4 ≤ length bytes.now }
{
    u32::from_le_bytes(array_at(bytes, at))
}

pub fn long_at(bytes: &[u8], at: usize) -> u64
    requires { at + 8 ≤ length bytes.now }
{
    u64::from_le_bytes(array_at(bytes, at))
}

fn array_at<const N: usize>(bytes: &[u8], at: usize) -> [u8; N]
    requires in_bytes { at + N ≤ length bytes.now }
    requires is_short { N ≤ 8 }
{
    let mut array = [0; N];
    array.copy_from_slice(&bytes[at..at + N]);
    array
}
