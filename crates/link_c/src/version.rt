// The library's version.
ghost use Rattle.std.specs.Prelude.{◌≡◌};
ghost use Rattle.link.specs.Version.{VERSION};

// The version of the library that was linked, as a value: first number in bits 15-8, second in bits 7-0.
#[unsafe(no_mangle)]
pub extern "C" fn dock_version() -> u32
    ensures { result ≡ VERSION }
{
    link::version::dock_version()
}
