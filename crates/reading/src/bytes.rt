// Numbers of 2 bytes, the low byte first.
ghost use Rattle.std.specs.Prelude.{◌≡◌, ◌+◌, ◌*◌, ◌≤◌, length};
ghost use Rattle.format.specs.Bytes.{number_at, numbers_at};

// The number at a place.
pub fn number_at(bytes: &[u8], at: usize) -> u32
    requires { at + 2 ≤ length bytes.now }
    ensures value { result ≡ number_at bytes.now at }
    ensures small { result ≤ 65535 }
{
    u32::from(u16::from_le_bytes([bytes[at], bytes[at + 1]]))
}

// Fills a slice with the numbers from a place on.
pub fn read_numbers(bytes: &[u8], at: usize, to: &mut [u32])
    requires { at + 2 * length to.old ≤ length bytes.now }
    ensures { to.new ≡ numbers_at bytes.now at (length to.old) }
{
    for i in 0..to.len() {
        to[i] = number_at(bytes, at + 2 * i);
    }
}
