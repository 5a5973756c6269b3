// The number of the interface for C, which the header has as LG_VERSION.
ghost use Rattle.std.specs.Prelude.{◌≡◌};
ghost use Rattle.capi.specs.Version.{version};

pub fn lg_version() -> u64
    ensures { result ≡ version }
{
    2
}
