// What is kept of the answers: a sum over them, and the two words that the handler goes by.
ghost use Rattle.std.specs.Prelude.{◌≡◌};
ghost use Rattle.bench_mixed.specs.Notes.{kept_of, added, looked};

#[derive(Clone, Copy)]
pub struct Notes {
    pub sum: u64,
    pub raised: u32,
    pub status: u32,
}

// The value where it was read at this place, and else the word as it was.
fn kept(place: u32, offset: u32, value: u32, word: u32) -> u32
    ensures { result ≡ kept_of place offset value word }
{
    if offset == place { value } else { word }
}

impl Notes {
    pub fn add(mut self, value: u64) -> Notes
        ensures { result ≡ added value self }
    {
        self.sum = (self.sum % 1000000007) * 3 + (value % 1000000007);
        self
    }

    // What was read at an offset.
    pub fn look(mut self, offset: u32, value: u32) -> Notes
        ensures { result ≡ looked offset value self }
    {
        self.raised = kept(bench_settings::INT_ST, offset, value, self.raised);
        self.status = kept(bench_settings::STATUS, offset, value, self.status);
        self.add(value as u64)
    }
}
