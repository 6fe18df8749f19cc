// The search for a byte.
ghost use Rattle.std.specs.Prelude.{◌≡◌};
ghost use Rattle.frame_lines.specs.Search.{place_of};

use memchr::memchr;

// The first place of the wanted byte from `start` on.
pub fn next_of(bytes: &[u8], start: usize, wanted: u8) -> Option<usize>
    ensures { result ≡ place_of wanted bytes.now start }
{
    if bytes.len() < start {
        return None;
    }
    let n = memchr(wanted, &bytes[start..])?;
    Some(start + n)
}
