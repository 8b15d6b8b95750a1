ghost use Rattle.std.specs.Prelude.{◌≡◌};
ghost use Rattle.nyrkovash.specs.Releases.{library_version};

#[unsafe(no_mangle)]
pub extern "C" fn nyr_library_version() -> u32
    ensures { result ≡ library_version }
{
    nyrkovash::nyr_library_version()
}
