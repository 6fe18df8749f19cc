// Which version the archive is: a caller compares it with the header's.
ghost use Rattle.std.specs.Prelude.{◌≡◌};
ghost use Rattle.agc2.specs.Version.{version};

pub fn agc2_version() -> u32
    ensures { result ≡ version }
{
    10000
}
