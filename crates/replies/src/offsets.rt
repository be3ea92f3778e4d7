// Whether an offset of a register map stands twice.
ghost use Rattle.std.specs.Prelude.{◌≡◌, ◌≤◌, drop};
ghost use Rattle.model.specs.Tests.{among, repeated as Tests·repeated};

// Whether an offset stands again from a place on.
fn stands_from(offsets: [u32; 16], from: usize, offset: u32) -> bool
    requires { from ≤ 16 }
    ensures { result ≡ among offset (drop from offsets) }
{
    offsets[from..].contains(&offset)
}

// Two of the sixteen offsets are equal.
pub fn repeated(offsets: [u32; 16]) -> bool
    ensures { result ≡ Tests·repeated offsets }
{
    for (at, &offset) in offsets.iter().enumerate() {
        if stands_from(offsets, at + 1, offset) {
            return true;
        }
    }
    false
}
