// The version of the structs and calls that cross to Rust and C. Its number, which its name has, goes up whenever one of
// them changes: a program that was compiled for another one then does not link.
ghost use Rattle.std.specs.Prelude.{◌≡◌};

#[unsafe(no_mangle)]
pub extern "C" fn wondraxu_abi_4() -> u32
    ensures { result ≡ 4 }
{
    4
}
