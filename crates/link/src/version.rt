// The library's version.
ghost use Rattle.std.specs.Prelude.{◌≡◌};
ghost use Rattle.link.specs.Version.{VERSION};

// The first number rises where a program that was built on an older header would misread or misuse a call, the second
// where it would not.
pub const VERSION: u32 = 5 * 256 + 3;

// The version of the library that was linked, as a value: first number in bits 15-8, second in bits 7-0.
pub fn dock_version() -> u32
    ensures { result ≡ VERSION }
{
    VERSION
}
