// Which library this is, for a program to hold beside the header that it was compiled with (docs/DECISIONS.md, 54).
ghost use Rattle.std.specs.Prelude.{◌≡◌};
ghost use Rattle.nyrkovash.specs.Releases.{library_version};

// NYR_LIBRARY_VERSION in include/nyrkovash.h.
pub const LIBRARY_VERSION: u32 = 40301;

#[unsafe(no_mangle)]
pub extern "C" fn nyr_library_version() -> u32
    ensures { result ≡ library_version }
{
    LIBRARY_VERSION
}
