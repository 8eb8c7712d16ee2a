// Numbers in bytes, least significant byte first. A function for each width: `from_le_bytes` belongs to a type, and no bound names it.
ghost use Rattle.std.specs.Prelude.{◌≡◌, ◌+◌, ◌≤◌, ◌<◌, length};
ghost use Rattle.trace.specs.Bytes.{number};

pub fn number2(s: &[u8], i: usize) -> u64
    requires { i + 2 ≤ length s.now }
    ensures { (result ≡ number 2 s.now i) × (result < 65536) }
{
    u16::from_le_bytes(s[i..i + 2].try_into().unwrap()).into()
}

pub fn number4(s: &[u8], i: usize) -> u64
    requires { i + 4 ≤ length s.now }
    ensures { (result ≡ number 4 s.now i) × (result < 4294967296) }
{
    u32::from_le_bytes(s[i..i + 4].try_into().unwrap()).into()
}

pub fn number8(s: &[u8], i: usize) -> u64
    requires { i + 8 ≤ length s.now }
    ensures { result ≡ number 8 s.now i }
{
    u64::from_le_bytes(s[i..i + 8].try_into().unwrap())
}
