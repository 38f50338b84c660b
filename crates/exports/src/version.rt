// Which build of the calls for C and Rust this is. What tankcurve_version gives is no answer of a call.

ghost use Rattle.std.specs.Prelude.{◌≡◌};
ghost use Rattle.exports.specs.Version.{version};

// Which build this is: version of specs/Version.antt.
pub const VERSION: u32 = 196864;

// Which build this is.
#[unsafe(no_mangle)]
pub extern "C" fn tankcurve_version() -> u32
    ensures { result ≡ version }
{
    VERSION
}
